// Bodies there and back under each kind, and behind a clear head.
use crate::cmea_cipher::CmeaCipher;
use crate::oryx_cipher::OryxCipher;
use auth::types::{AuthData, OpeningRecord, RunEnd};
use cipher::fault::CipherFault;
use cipher::head::ClearHead;
use cipher::kind::Cipher;
use cipher::trip::there_and_back;

const PLAIN: [u8; 5] = [0xb6, 0x2d, 0xa2, 0x44, 0xfe];

fn opening() -> OpeningRecord {
    OpeningRecord {
        ssd_b: 0xcc38_1294_9f4d_cd0d,
        esn: 0xd75a_96ec,
        rand: 0x34a2_b05f,
        auth_data: AuthData([0xc7, 0x90, 0x21]),
        left: RunEnd {
            lfsr: 0x0f4c_2c51,
            offset1: 0x4a,
            offset2: 0x6e,
        },
    }
}

// Whether a cipher that is not keyed refuses every body, and keyed changes this one and gives it back.
fn changes_and_gives_back<C: Cipher>(cipher: &mut C) -> bool {
    let mut body = PLAIN;
    let unkeyed = !cipher.is_keyed()
        && there_and_back(cipher, 7, &mut body) == Err(CipherFault::NotKeyed);
    cipher.key(opening());
    let given_back = cipher.is_keyed()
        && there_and_back(cipher, 7, &mut body) == Ok(())
        && body == PLAIN;
    let changed = cipher.cipher(7, &mut body) == Ok(()) && body != PLAIN;
    unkeyed && given_back && changed
}

#[test]
fn under_each_kind(rt: HostRuntime) {
    assert!(rt; changes_and_gives_back(&mut CmeaCipher::new()));
    assert!(rt; changes_and_gives_back(&mut OryxCipher::new()));
    assert!(rt; changes_and_gives_back(&mut ClearHead::new(3, CmeaCipher::new())));
}

#[test]
fn too_short_behind_heads(rt: HostRuntime) {
    let mut cipher = ClearHead::new(1, ClearHead::new(3, CmeaCipher::new()));
    cipher.key(opening());
    for (length, seen, layers) in [(0, 0, 0), (1, 0, 1), (3, 2, 1), (4, 0, 2), (5, 1, 2)] {
        let mut body = PLAIN;
        assert!(rt; length <= body.len());
        let refused = Err(CipherFault::WrongLength {
            length: seen,
            layers,
        });
        assert_eq!(rt; there_and_back(&cipher, 7, &mut body[..length]), refused);
        assert_eq!(rt; body, PLAIN);
    }
}
