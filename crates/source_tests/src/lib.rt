//! Examples of both token sources: what texts and tapes are listed as, and the limits.

#![tactic(auto)]

#[cfg(test)]
mod tests {
    use listing::list_tokens;
    use std::alloc::{AllocError, Global};
    use std::test::Fail;
    use tape_source::TapeSource;
    use text_source::TextSource;
    use token::{Fault, Kind, Source};

    fn lists_as<S: Source + Drop>(
        heap: Global,
        mut source: S,
        lines: &[u8],
    ) -> Result<bool, AllocError> {
        let listed = list_tokens(heap, &mut source)?;
        Ok(listed.as_slice() == lines)
    }

    struct Case {
        text: &'static [u8],
        lines: &'static [u8],
    }

    static CASES: [Case; 35] = [
        Case {
            text: b"",
            lines: b"1:1 end\n",
        },
        Case {
            text: b".5",
            lines: b"1:1 float .5\n1:3 end\n",
        },
        Case {
            text: b"1.",
            lines: b"1:1 float 1.\n1:3 end\n",
        },
        Case {
            text: b"1e5",
            lines: b"1:1 float 1e5\n1:4 end\n",
        },
        Case {
            text: b"09",
            lines: b"1:1 fault 2 BadNumber\n",
        },
        Case {
            text: b"0x",
            lines: b"1:1 fault 2 BadNumber\n",
        },
        Case {
            text: b"0x1F",
            lines: b"1:1 integer 31\n1:5 end\n",
        },
        Case {
            text: b"017",
            lines: b"1:1 integer 15\n1:4 end\n",
        },
        Case {
            text: b"1_e+5",
            lines: b"1:1 fault 2 BadNumber\n",
        },
        Case {
            text: b"0x1e+5",
            lines: b"1:1 integer 30\n1:5 symbol +\n1:6 integer 5\n1:7 end\n",
        },
        Case {
            text: b"18446744073709551615",
            lines: b"1:1 integer 18446744073709551615\n1:21 end\n",
        },
        Case {
            text: b"18446744073709551616",
            lines: b"1:1 fault 2 BadNumber\n",
        },
        Case {
            text: b"\"a\\\"b\"",
            lines: b"1:1 string a\\\"b\n1:7 end\n",
        },
        Case {
            text: b"'a\"b'",
            lines: b"1:1 string a\"b\n1:6 end\n",
        },
        Case {
            text: b"\"a\nb\"",
            lines: b"1:1 fault 3 UnclosedString\n",
        },
        Case {
            text: b"\"a\x00b\"",
            lines: b"1:1 fault 3 UnclosedString\n",
        },
        Case {
            text: b"\"a",
            lines: b"1:1 fault 3 UnclosedString\n",
        },
        Case {
            text: b"\"a\\\n\"",
            lines: b"1:1 fault 3 UnclosedString\n",
        },
        Case {
            text: b"\"a\\\x00\"",
            lines: b"1:1 fault 3 UnclosedString\n",
        },
        Case {
            text: b"\"a\\",
            lines: b"1:1 fault 3 UnclosedString\n",
        },
        Case {
            text: b"a /*/",
            lines: b"1:1 ident a\n1:3 fault 4 UnclosedComment\n",
        },
        Case {
            text: b"/**/a",
            lines: b"1:5 ident a\n1:6 end\n",
        },
        Case {
            text: b"a/b",
            lines: b"1:1 ident a\n1:2 symbol /\n1:3 ident b\n1:4 end\n",
        },
        Case {
            text: b"/",
            lines: b"1:1 symbol /\n1:2 end\n",
        },
        Case {
            text: b"\xef\xbb\xbfa",
            lines: b"1:1 fault 1 BadByte\n",
        },
        Case {
            text: b"a\rb\n\tc",
            lines: b"1:1 ident a\n1:3 ident b\n2:2 ident c\n2:3 end\n",
        },
        Case {
            text: b"a\n  \"b",
            lines: b"1:1 ident a\n2:3 fault 3 UnclosedString\n",
        },
        Case {
            text: b"a // b\nc",
            lines: b"1:1 ident a\n2:1 ident c\n2:2 end\n",
        },
        Case {
            text: b"// a",
            lines: b"1:5 end\n",
        },
        Case {
            text: b"a..5",
            lines: b"1:1 ident a\n1:2 symbol .\n1:3 float .5\n1:5 end\n",
        },
        Case {
            text: b"-1.5e-3;",
            lines: b"1:1 symbol -\n1:2 float 1.5e-3\n1:8 symbol ;\n1:9 end\n",
        },
        Case {
            text: b"inf nan",
            lines: b"1:1 ident inf\n1:5 ident nan\n1:8 end\n",
        },
        Case {
            text: b"\\",
            lines: b"1:1 fault 1 BadByte\n",
        },
        Case {
            text: b"message M { optional int32 a = 1; }",
            lines: b"1:1 ident message\n1:9 ident M\n1:11 symbol {\n1:13 ident optional\n1:22 ident int32\n1:28 ident a\n1:30 symbol =\n1:32 integer 1\n1:33 symbol ;\n1:35 symbol }\n1:36 end\n",
        },
        Case {
            text: b"[(a.b).c<d>:+e,]",
            lines: b"1:1 symbol [\n1:2 symbol (\n1:3 ident a\n1:4 symbol .\n1:5 ident b\n1:6 symbol )\n1:7 symbol .\n1:8 ident c\n1:9 symbol <\n1:10 ident d\n1:11 symbol >\n1:12 symbol :\n1:13 symbol +\n1:14 ident e\n1:15 symbol ,\n1:16 symbol ]\n1:17 end\n",
        },
    ];

    #[test]
    fn texts(rt: HostRuntime) -> Result<(), Fail> {
        for case in &CASES {
            assert!(rt; lists_as(rt.alloc(), TextSource::new(case.text), case.lines)?);
        }
        Ok(())
    }

    // What comes first in a text, by its kind and the length of its text.
    fn first(text: &[u8]) -> Result<(Kind, usize), Fault> {
        let look = TextSource::new(text).look().map_err(|at| at.fault)?;
        Ok((look.kind, look.len))
    }

    #[test]
    fn longest_names_and_numbers(rt: HostRuntime) {
        assert_eq!(rt; first(&[b'a'; 1023]), Ok((Kind::Ident, 1023)));
        assert_eq!(rt; first(&[b'a'; 1024]), Err(Fault::TokenTooLong));
        assert_eq!(rt; first(&[b'0'; 1023]), Ok((Kind::IntLit, 0)));
        assert_eq!(rt; first(&[b'0'; 1024]), Err(Fault::TokenTooLong));
    }

    #[test]
    fn longest_strings(rt: HostRuntime) {
        let mut longest = [b'a'; 1025];
        longest[0] = b'"';
        longest[1024] = b'"';
        assert_eq!(rt; first(&longest), Ok((Kind::StrLit, 1023)));
        let mut longer = [b'a'; 1026];
        longer[0] = b'"';
        assert_eq!(rt; first(&longer), Err(Fault::UnclosedString));
        longer[1025] = b'"';
        assert_eq!(rt; first(&longer), Err(Fault::TokenTooLong));
    }

    // `syntax = "proto2";`
    static WORDS: [u32; 9] = [
        0x60000006, 0x746E7973, 0x00007861, 0x2000003D, 0xA0000006, 0x746F7270, 0x0000326F,
        0x2000003B, 0x00000000,
    ];

    // What the tape is listed as when it is cut before each of its words, and whole.
    static CUT: [&[u8]; 10] = [
        b"0:0 fault 6 CutTape\n",
        b"0:0 fault 6 CutTape\n",
        b"0:0 fault 6 CutTape\n",
        b"0:0 ident syntax\n0:3 fault 6 CutTape\n",
        b"0:0 ident syntax\n0:3 symbol =\n0:4 fault 6 CutTape\n",
        b"0:0 ident syntax\n0:3 symbol =\n0:4 fault 6 CutTape\n",
        b"0:0 ident syntax\n0:3 symbol =\n0:4 fault 6 CutTape\n",
        b"0:0 ident syntax\n0:3 symbol =\n0:4 string proto2\n0:7 fault 6 CutTape\n",
        b"0:0 ident syntax\n0:3 symbol =\n0:4 string proto2\n0:7 symbol ;\n0:8 fault 6 CutTape\n",
        b"0:0 ident syntax\n0:3 symbol =\n0:4 string proto2\n0:7 symbol ;\n0:8 end\n",
    ];

    #[test]
    fn cut_tapes(rt: HostRuntime) -> Result<(), Fail> {
        for (n, lines) in CUT.iter().enumerate() {
            assert!(rt; lists_as(rt.alloc(), TapeSource::new(&WORDS[..n]), lines)?);
        }
        Ok(())
    }

    #[test]
    fn tapes(rt: HostRuntime) -> Result<(), Fail> {
        let heap = rt.alloc();
        let number = [0x40000000, 0x00000002, 0x00000001, 0, 7];
        assert!(rt;
            lists_as(
                heap,
                TapeSource::new(&number),
                b"0:0 integer 4294967298\n0:3 end\n"
            )?
        );
        let float = [0x80000003, 0x0035652E, 0];
        assert!(rt; lists_as(heap, TapeSource::new(&float), b"0:0 fault 7 BadWord\n")?);
        let float = [0x80000003, 0x00356531, 0];
        assert!(rt; lists_as(heap, TapeSource::new(&float), b"0:0 float 1e5\n0:2 end\n")?);
        let padded = [0x60000001, 0x00010061, 0];
        assert!(rt; lists_as(heap, TapeSource::new(&padded), b"0:0 fault 7 BadWord\n")?);
        let unknown = [0x20000040];
        assert!(rt; lists_as(heap, TapeSource::new(&unknown), b"0:0 fault 7 BadWord\n")?);
        let empty = [0x2000002E, 0x60000000];
        assert!(rt;
            lists_as(
                heap,
                TapeSource::new(&empty),
                b"0:0 symbol .\n0:1 fault 7 BadWord\n"
            )?
        );
        Ok(())
    }
}
