// Tests of CMEA: messages of lengths about its edges, there and back, and those that are too short.
#![tactic(auto)]

#[cfg(test)]
mod tests {
    use cmea::key::CmeaKey;
    use refusal::Refusal;
    use std::array;

    // The CMEA key of the standard's own example.
    const KEY: [u8; 8] = [0xa0, 0x7b, 0x1c, 0xd1, 0x02, 0x75, 0x69, 0x14];

    fn plain() -> [u8; 600] {
        array::from_fn(|i| (i * 7 % 251) as u8)
    }

    // Ciphers the first bytes of a message.
    fn cipher(message: &mut [u8], length: usize) -> Result<(), Refusal> {
        let front = length.min(message.len());
        CmeaKey::new(KEY).cipher(&mut message[..front])
    }

    // The first and the last byte of each image come from a transcription of the standard's C text, made apart from this code.
    #[test]
    fn there_and_back(rt: HostRuntime) {
        let plain = plain();
        let images = [
            (2, 0x33, 0x6a),
            (3, 0x7f, 0xfa),
            (255, 0x7f, 0x8e),
            (256, 0x01, 0x2e),
            (257, 0x7f, 0x45),
            (600, 0x55, 0x4c),
        ];
        for (length, first, last) in images {
            let mut message = plain;
            assert!(rt; 0 < length && length <= 600);
            assert_eq!(rt; cipher(&mut message, length), Ok(()));
            assert_eq!(rt; message[0], first);
            assert_eq!(rt; message[length - 1], last);
            assert_eq!(rt; cipher(&mut message, length), Ok(()));
            assert_eq!(rt; message, plain);
        }
        for length in [0, 1] {
            let mut message = plain;
            let refusal = Refusal::WrongLength { length, layers: 0 };
            assert_eq!(rt; cipher(&mut message, length), Err(refusal));
            assert_eq!(rt; message, plain);
        }
    }
}
