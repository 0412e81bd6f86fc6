use super::*;
use std::test::Fail;

#[test]
fn words_tell_this(rt: HostRuntime) -> Result<(), Fail> {
    let told = |blocks, align, generate| {
        Some(ReplayWords {
            blocks,
            align,
            generate,
        })
    };
    let rows: [(&[&str], Option<ReplayWords>); 15] = [
        (&[], told(64, 512, None)),
        (&["--blocks", "65536"], told(65_536, 512, None)),
        (&["--blocks", "65537"], None),
        (&["--blocks", "0"], None),
        (&["--blocks", "08"], None),
        (&["--blocks"], None),
        (&["--align", "4096"], told(64, 4096, None)),
        (&["--align", "1024"], None),
        (&["--align", "512", "--blocks", "1"], told(1, 512, None)),
        (&["--blocks", "1", "--blocks", "1"], None),
        (&["--generate", "7"], told(64, 512, Some(7))),
        (
            &[
                "--generate",
                "18446744073709551615",
                "--align",
                "4096",
                "--blocks",
                "8",
            ],
            told(8, 4096, Some(u64::MAX)),
        ),
        (&["--generate", "18446744073709551616"], None),
        (&["--generate", "1", "--generate", "1"], None),
        (&["--blocks", "8", "disk"], None),
    ];
    for (words, expected) in rows {
        let mut list = Vec::new(rt.alloc());
        for word in words {
            list.push(word.to_string(rt.alloc())?)?;
        }
        assert_eq!(rt; replay_words(list.as_slice()), expected);
    }
    Ok(())
}
