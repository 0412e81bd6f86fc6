use super::*;
use qs_bytes::Memory;
use std::alloc::Global;
use std::test::Fail as Failure;

fn words_of(alloc: Global, words: &[&str]) -> Result<Vec<String>, Memory> {
    let mut texts = Vec::new(alloc);
    for word in words {
        texts.push(String::from_str(alloc, word)?)?;
    }
    Ok(texts)
}

/// Words, and the number of the image's word, the bytes of a block, whether the export is read-only, and
/// whether requests come at once.
type Told = (&'static [&'static str], Option<(usize, u32, bool, bool)>);

const TOLD: [Told; 17] = [
    (&["--transmission", "disk.img"], Some((1, 512, false, true))),
    (
        &["--transmission", "--read-only", "a"],
        Some((2, 512, true, true)),
    ),
    (
        &["--read-only", "--transmission", "a"],
        Some((2, 512, true, true)),
    ),
    (
        &["--align", "4096", "--transmission", "a"],
        Some((3, 4096, false, true)),
    ),
    (
        &["--transmission", "--align", "512", "--read-only", "-"],
        Some((4, 512, true, true)),
    ),
    (&[], None),
    (&["a"], Some((0, 512, false, false))),
    (&["--read-only", "a"], Some((1, 512, true, false))),
    (&["--transmission"], None),
    (&["--transmission", "--align"], None),
    (&["--transmission", "--align", "a"], None),
    (&["--transmission", "--align", "1024", "a"], None),
    (&["--transmission", "--transmission", "a"], None),
    (
        &["--align", "512", "--align", "512", "--transmission", "a"],
        None,
    ),
    (&["--transmission", "--unknown"], None),
    (&["--transmission", "a", "b"], None),
    (&["a", "--transmission"], None),
];

#[test]
fn words_tell_each_option_once(rt: HostRuntime) -> Result<(), Failure> {
    let alloc = rt.alloc();
    for (words, told) in TOLD {
        let texts = words_of(alloc, words)?;
        let expected = told.map(|(image, align, read_only, transmission)| StdioWords {
            image,
            align,
            read_only,
            transmission,
        });
        assert_eq!(rt; stdio_words(texts.as_slice()), expected);
    }
    Ok(())
}
