// Tests of reading a key entry: the edges of the count, the first bad digit, the check, and the order of the refusals.
#![tactic(auto)]

#[cfg(test)]
mod tests {
    use entry::read_entry;
    use refusal::Refusal;

    const ESN: u32 = 0xd75a_96ec;

    // The key digits 14142135623730950488 with their check digits 086500 are the standard's own example.
    #[test]
    fn entries(rt: HostRuntime) {
        let bad = [
            (&b""[..], Refusal::WrongCount { count: 0 }),
            (&b"89140"[..], Refusal::WrongCount { count: 5 }),
            (
                &b"014142135623730950488086500"[..],
                Refusal::WrongCount { count: 27 },
            ),
            (
                &b"x14142135623730950488086500"[..],
                Refusal::WrongCount { count: 27 },
            ),
            (&b"/89140"[..], Refusal::NotADigit { index: 0 }),
            (&b"08914:"[..], Refusal::NotADigit { index: 5 }),
            (
                &b"14142135623730950488 86x00"[..],
                Refusal::NotADigit { index: 20 },
            ),
            (&b"089141"[..], Refusal::CheckDiffers),
            (&b"14142135623730950488086501"[..], Refusal::CheckDiffers),
            (&b"24142135623730950488086500"[..], Refusal::CheckDiffers),
        ];
        for (typed, refusal) in bad {
            assert_eq!(rt; read_entry(ESN, typed), Err(refusal));
        }
        let good = [
            (&b"089140"[..], 0),
            (&b"0089140"[..], 0),
            (&b"00000000000000000000089140"[..], 0),
            (&b"18446744073709551615029255"[..], 0xffff_ffff_ffff_ffff),
            (&b"18446744073709551616089140"[..], 0),
            (&b"14142135623730950488086500"[..], 0xc442_f56b_e9e1_7158),
        ];
        for (typed, key) in good {
            assert_eq!(rt; read_entry(ESN, typed), Ok(key));
        }
        assert_eq!(rt;
            read_entry(0, b"14142135623730950488086500"),
            Err(Refusal::CheckDiffers)
        );
    }
}
