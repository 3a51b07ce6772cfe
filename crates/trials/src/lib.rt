// Whole texts against the lines that they must print, single groups against the replies and bit counts that are worked out by
// hand, and the simulated network call by call.
#![tactic(auto)]

use script::run_text;
use std::alloc::{AllocError, Global};

// What the program prints of a text.
pub fn printed(heap: Global, text: &[u8]) -> Result<String, AllocError> {
    let mut out = String::new(heap);
    for line in run_text(heap, text)?.iter() {
        writeln!(out, "{line}")?;
    }
    Ok(out)
}

#[cfg(test)]
mod groups;
#[cfg(test)]
mod networks;
#[cfg(test)]
mod setup;

#[cfg(test)]
mod tests {
    use super::*;
    use std::process::Abort;
    use std::test::Fail;

    fn check_texts(rt: &impl Abort, heap: Global, cases: &[(&[u8], &str)]) -> Result<(), Fail> {
        for (text, lines) in cases {
            let out = printed(heap, text)?;
            assert_eq!(rt; out.as_str(), *lines, "{}", lines);
        }
        Ok(())
    }

    #[test]
    fn groups_are_sent_and_answered(rt: HostRuntime) -> Result<(), Fail> {
        check_texts(
            &rt,
            rt.alloc(),
            &[
                (
                    b"iWrite i1 0b11111111; iGet i3; iApply; iGet i1; iApply;",
                    "C 40 01 00 03 80 01 FF\nR FF 00 00\nC 00 01 80 00\nR 00 00 00\n",
                ),
                // Data bits go by number, the highest first, whatever the order of the words.
                (
                    b"iWrite i1 0b00001111; iWrite i3 0b10100101; iApply; iGet i3; iGet i2; iGet i1; iApply;",
                    "C 40 01 40 03 80 02 A5 0F\nR 00 00\nC 00 03 00 02 00 01 80 00\nR 5A FF F0 00 00\n",
                ),
                // A read leaves ones behind.
                (
                    b"iGet i2; iApply; iGet i2; iApply;",
                    "C 00 02 80 00\nR FF 00 00\nC 00 02 80 00\nR 00 00 00\n",
                ),
                // A group that is not applied prints nothing.
                (b"iGet i1; iWrite i2 0b00000000;", ""),
                (b"iGet i2; iApply; iGet i1;", "C 00 02 80 00\nR FF 00 00\n"),
                (b"", ""),
            ],
        )
    }

    #[test]
    fn blanks_stand_between_words_only(rt: HostRuntime) -> Result<(), Fail> {
        check_texts(
            &rt,
            rt.alloc(),
            &[
                (b" \n \n", ""),
                (
                    b"\n  iWrite \n i1\n\n0b11111111;iGet  i3;\niApply;\n",
                    "C 40 01 00 03 80 01 FF\nR FF 00 00\n",
                ),
                (b"iGet i1 ;", "E 10 0\n"),
                (b"iApply\n;", "E 10 0\n"),
                (b"iGeti1;", "E 10 0\n"),
                (b"iGet i 1;", "E 10 0\n"),
                (b"iGet\ti1;", "E 10 0\n"),
                (b"iGet i1;\r\n", "E 10 8\n"),
                (b"iWrite i1 0b 11111111;", "E 10 0\n"),
                (b"iWrite i10b11111111;", "E 10 0\n"),
            ],
        )
    }

    #[test]
    fn the_first_refusal_ends_a_text(rt: HostRuntime) -> Result<(), Fail> {
        check_texts(
            &rt,
            rt.alloc(),
            &[
                (b"iGet i4;", "E 4 0\n"),
                (b" iGet i1; iGet i1;", "E 5 10\n"),
                (b"iGet i1; iWrite i1 0b1;", "E 5 9\n"),
                (b"\niApply;", "E 6 1\n"),
                (
                    b"iGet i1; iApply; iApply;",
                    "C 00 01 80 00\nR FF 00 00\nE 6 17\n",
                ),
                (b"iWrite i1 0b1;", "E 11 0\n"),
                (b"iWrite i1 0b111111111;", "E 11 0\n"),
                (b"iWrite i4 0b1;", "E 4 0\n"),
                (b"iGet i4; iWrote;", "E 4 0\n"),
                (b"iGet i1; iGet", "E 10 9\n"),
                (b"iWrote;", "E 10 0\n"),
                (b"\x00", "E 10 0\n"),
                (b"iGet i1;\xFF\xFE", "E 10 8\n"),
                (b"iGet i\xC2\xA01;", "E 10 0\n"),
            ],
        )
    }

    #[test]
    fn numbers_have_no_leading_zero_and_never_wrap(rt: HostRuntime) -> Result<(), Fail> {
        check_texts(
            &rt,
            rt.alloc(),
            &[
                (b"iGet i;", "E 10 0\n"),
                (b"iGet i0;", "E 10 0\n"),
                (b"iGet i01;", "E 10 0\n"),
                (b"iGet i16382;", "E 4 0\n"),
                (b"iGet i65537;", "E 4 0\n"),
                (b"iGet i4294967297;", "E 4 0\n"),
                (b"iGet i18446744073709551615;", "E 4 0\n"),
                (b"iGet i18446744073709551617;", "E 4 0\n"),
                (b"iGet i36893488147419103233;", "E 4 0\n"),
                (b"iWrite i1 0b;", "E 10 0\n"),
                (b"iWrite i1 0b12;", "E 10 0\n"),
            ],
        )
    }

    // So many blanks, and a statement of eight bytes that is refused.
    fn padded(heap: Global, blanks: usize) -> Result<Vec<u8>, Fail> {
        let mut text = vec![in heap; b' '; blanks]?;
        text.extend_from_slice(b"iGet i4;")?;
        Ok(text)
    }

    #[test]
    fn a_text_has_at_most_4096_bytes(rt: HostRuntime) -> Result<(), Fail> {
        let heap = rt.alloc();
        let longest = padded(heap, 4_088)?;
        check_texts(&rt, heap, &[(longest.as_slice(), "E 4 4088\n")])?;
        let too_long = padded(heap, 4_089)?;
        check_texts(&rt, heap, &[(too_long.as_slice(), "E 8 0\n")])
    }
}
