use crate::{KeyvalFault, laws, read_word};
use std::alloc::Global;
use std::test::Fail;

/// What a word reads as: its JSON, or the fault in words.
fn reading(alloc: Global, word: &str, implied: Option<&str>) -> Result<String, Fail> {
    match read_word(alloc, word, implied) {
        Ok(value) => Ok(value.to_string(alloc)?),
        Err(KeyvalFault::BadKey(at)) => Ok(format!(in alloc; "bad key at {at}")?),
        Err(KeyvalFault::NoValue(at)) => Ok(format!(in alloc; "no value at {at}")?),
        Err(KeyvalFault::Clash(key)) => {
            let key = String::from_utf8(Vec::from_slice(alloc, key.as_slice())?).map_err(
                |_| "no text",
            )?;
            Ok(format!(in alloc; "clash at {key}")?)
        }
        Err(KeyvalFault::BadJson) => Ok(String::from_str(alloc, "bad JSON")?),
        Err(KeyvalFault::Memory) => Ok(String::from_str(alloc, "no memory")?),
    }
}

const LONG: &str =
    "node-name=aaaaaaaaaaaaaaaaaaaaaaaaaaaaaaaaaaaaaaaaaaaaaaaaaaaaaaaaaaaaaaaaaaaaaaaa";

const LONG_READ: &str =
    r#"{"node-name":"aaaaaaaaaaaaaaaaaaaaaaaaaaaaaaaaaaaaaaaaaaaaaaaaaaaaaaaaaaaaaaaaaaaaaaaa"}"#;

/// Words, and what each reads as where no key is implied.
const WORDS: [(&str, &str); 36] = [
    (
        "driver=raw,node-name=r0,file=f0,offset=512",
        r#"{"driver":"raw","file":"f0","node-name":"r0","offset":"512"}"#,
    ),
    ("a=x,,y", r#"{"a":"x,y"}"#),
    ("a.b=1,a.c=2", r#"{"a":{"b":"1","c":"2"}}"#),
    ("a", "no value at 0"),
    ("=1", "bad key at 0"),
    ("a=1,=2", "bad key at 4"),
    ("a=1,", r#"{"a":"1"}"#),
    ("a=1,a=2", r#"{"a":"2"}"#),
    ("a=1,a.b=2", "clash at a"),
    ("a.b=2,a=1", "clash at a"),
    ("a.b.c=1,a.b=2", "clash at a.b"),
    ("a.b=1,a.b.c=2", "clash at a.b"),
    ("", "{}"),
    (",", "bad key at 0"),
    ("a=1,,", r#"{"a":"1,"}"#),
    ("a=1,,,", r#"{"a":"1,"}"#),
    ("a=1,,,b=2", r#"{"a":"1,","b":"2"}"#),
    ("a=1,,,,b=2", r#"{"a":"1,,b=2"}"#),
    ("a,,b=1", "bad key at 0"),
    ("a=1,b,,c=2", "bad key at 4"),
    ("x=,,,b", "no value at 5"),
    ("a=", r#"{"a":""}"#),
    ("a=b=c", r#"{"a":"b=c"}"#),
    (".a=1", "bad key at 0"),
    ("a.=1", "bad key at 0"),
    ("a..b=1", "bad key at 0"),
    ("a b=1", "bad key at 0"),
    ("\u{e9}=1", "bad key at 0"),
    ("a=\u{e9}", "{\"a\":\"\u{e9}\"}"),
    ("a-Z_9=1", r#"{"a-Z_9":"1"}"#),
    ("a=1,b", "no value at 4"),
    ("b,a=1,=", "no value at 0"),
    (r#"{"a":"#, "bad JSON"),
    (r#"{"a":[1,true]} "#, r#"{"a":[1,true]}"#),
    (r#"{"a":1},b=2"#, "bad JSON"),
    (LONG, LONG_READ),
];

#[test]
fn words_are_read(rt: HostRuntime) -> Result<(), Fail> {
    for (word, read) in WORDS {
        assert_eq!(rt; reading(rt.alloc(), word, None)?.as_str(), read, "{word}");
    }
    Ok(())
}

#[test]
fn the_first_item_may_have_the_implied_key(rt: HostRuntime) -> Result<(), Fail> {
    let rows = [
        ("raw,file=f0", r#"{"driver":"raw","file":"f0"}"#),
        ("a,,b,file=f0", r#"{"driver":"a,b","file":"f0"}"#),
        ("raw,", r#"{"driver":"raw"}"#),
        ("raw,driver=file", r#"{"driver":"file"}"#),
        ("raw,driver.a=1", "clash at driver"),
        ("file=f0,raw", "no value at 8"),
        ("raw,raw", "no value at 4"),
        ("", "{}"),
        (",raw", "bad key at 0"),
        (r#"{"file":"f0"}"#, r#"{"file":"f0"}"#),
    ];
    for (word, read) in rows {
        assert_eq!(rt;
            reading(rt.alloc(), word, Some("driver"))?.as_str(),
            read,
            "{word}"
        );
    }
    laws::spellings();
    laws::keys();
    Ok(())
}
