use crate::{DaemonWords, Listen, WordCommand, WordFault, daemon_words, laws};
use qs_bytes::{Memory, Name};
use qs_command::Command;
use std::alloc::Global;
use std::str;
use std::test::Fail;

fn words_of(alloc: Global, words: &[&str]) -> Result<Vec<String>, Memory> {
    let mut texts = Vec::new(alloc);
    for word in words {
        texts.push(String::from_str(alloc, word)?)?;
    }
    Ok(texts)
}

fn show(name: &Name) -> &str {
    str::from_utf8(name.as_slice()).unwrap_or("no text")
}

/// A command of an option in words, behind the number of its word.
fn spelled(alloc: Global, told: &WordCommand) -> Result<String, Fail> {
    let word = told.word;
    Ok(match &told.command {
        Command::AddRaw {
            name,
            child,
            offset,
            size,
            read_only,
        } => format!(in alloc;
            "; {word} raw {} {} {offset} {size:?} {read_only}",
            show(name),
            show(child)
        )?,
        Command::AddThrottle {
            name,
            child,
            group,
            read_only,
        } => format!(in alloc;
            "; {word} throttle {} {} {} {read_only}",
            show(name),
            show(child),
            show(group)
        )?,
        Command::GroupAdd { id, limits } => format!(in alloc;
            "; {word} group {} {}",
            show(id),
            limits.limits().iops_total.avg
        )?,
        Command::ExportAdd {
            id,
            name,
            node,
            writable,
            share_write,
        } => format!(in alloc;
            "; {word} export {} {} {} {writable} {share_write}",
            show(id),
            show(name),
            show(node)
        )?,
        _ => format!(in alloc; "; {word} other")?,
    })
}

fn listening(alloc: Global, listen: Option<&Listen>) -> Result<String, Fail> {
    Ok(match listen {
        None => String::from_str(alloc, "nowhere")?,
        Some(Listen::Unix { path }) => format!(in alloc; "unix {}", path.as_str())?,
        Some(Listen::Inet { host, port }) => format!(in alloc; "inet {} {port}", host.as_str())?,
    })
}

/// What words tell, in words.
fn told(alloc: Global, told: &DaemonWords) -> Result<String, Fail> {
    let mut text = format!(in alloc;
        "{} {} {} {}; {}; {} {}",
        show(&told.image.node),
        told.image.filename.as_str(),
        told.image.align,
        told.image.read_only,
        listening(alloc, told.listen.as_ref())?,
        told.monitor,
        told.workers
    )?;
    for command in told.commands.as_slice() {
        text.push_str(spelled(alloc, command)?.as_str())?;
    }
    Ok(text)
}

/// What these words are read as.
fn reading(alloc: Global, words: &[&str]) -> Result<String, Fail> {
    let words = words_of(alloc, words)?;
    match &daemon_words(alloc, words.as_slice()) {
        Ok(words) => told(alloc, words),
        Err(WordFault::Help) => Ok(String::from_str(alloc, "help")?),
        Err(WordFault::Version) => Ok(String::from_str(alloc, "version")?),
        Err(WordFault::Bad(word)) => Ok(format!(in alloc; "bad {word}")?),
        Err(WordFault::Memory) => Ok(String::from_str(alloc, "no memory")?),
    }
}

const FILE: &str = "driver=file,node-name=f0,filename=disk.img";

/// Words, and what they tell.
const TOLD: [(&[&str], &str); 16] = [
    (
        &[
            "--blockdev",
            FILE,
            "--blockdev",
            "driver=raw,node-name=r0,file=f0,offset=1048576,size=33554432",
            "--object",
            "throttle-group,id=tg0,limits.iops-total=1000",
            "--blockdev",
            "driver=throttle,node-name=t0,throttle-group=tg0,file=r0",
            "--nbd-server",
            "addr.type=unix,addr.path=nbd.sock",
            "--export",
            "type=nbd,id=e0,node-name=t0,name=vm0,writable=on",
            "--chardev",
            "stdio,id=c0",
            "--monitor",
            "chardev=c0",
        ],
        "f0 disk.img 512 false; unix nbd.sock; true 4; 3 raw r0 f0 1048576 Some(33554432) false; 5 group tg0 1000\
         ; 7 throttle t0 r0 tg0 false; 11 export e0 vm0 t0 true true",
    ),
    (
        &["--blockdev", FILE],
        "f0 disk.img 512 false; nowhere; false 4",
    ),
    (
        &[
            "--blockdev",
            "file,node-name=n,filename=a,,b,x-align=4096,read-only=on",
        ],
        "n a,b 4096 true; nowhere; false 4",
    ),
    (
        &[
            "--blockdev",
            r#"{"driver":"file","node-name":"n","filename":"","x-align":512,"read-only":false}"#,
        ],
        "n  512 false; nowhere; false 4",
    ),
    (
        &["--workers", "8", "--blockdev", FILE],
        "f0 disk.img 512 false; nowhere; false 8",
    ),
    (
        &["--blockdev", FILE, "--workers", "1"],
        "f0 disk.img 512 false; nowhere; false 1",
    ),
    (
        &[
            "--object",
            "throttle-group,id=g",
            "--export",
            "nbd,id=e,node-name=f0",
            "--blockdev",
            FILE,
        ],
        "f0 disk.img 512 false; nowhere; false 4; 1 group g 0; 3 export e f0 f0 false true",
    ),
    (
        &[
            "--object",
            r#"{"qom-type":"throttle-group","id":"g","limits":{"iops-total":"7"}}"#,
            "--blockdev",
            FILE,
            "--object",
            "throttle-group,id=g",
        ],
        "f0 disk.img 512 false; nowhere; false 4; 1 group g 7; 5 group g 0",
    ),
    (
        &["--chardev", "stdio,id=c", "--blockdev", FILE],
        "f0 disk.img 512 false; nowhere; false 4",
    ),
    (
        &[
            "--chardev",
            "backend=stdio,id=c",
            "--monitor",
            "c",
            "--blockdev",
            FILE,
        ],
        "f0 disk.img 512 false; nowhere; true 4",
    ),
    (
        &[
            "--nbd-server",
            "addr.type=inet,addr.host=::1,addr.port=0",
            "--blockdev",
            FILE,
        ],
        "f0 disk.img 512 false; inet ::1 0; false 4",
    ),
    (
        &[
            "--nbd-server",
            "addr.type=inet,addr.host=localhost,addr.port=65535",
            "--blockdev",
            FILE,
        ],
        "f0 disk.img 512 false; inet localhost 65535; false 4",
    ),
    (
        &[
            "--nbd-server",
            r#"{"addr":{"type":"inet","host":"h","port":10809}}"#,
            "--blockdev",
            FILE,
        ],
        "f0 disk.img 512 false; inet h 10809; false 4",
    ),
    (
        &[
            "--nbd-server",
            r#"{"addr":{"type":"unix","path":"a b"}}"#,
            "--blockdev",
            FILE,
        ],
        "f0 disk.img 512 false; unix a b; false 4",
    ),
    (&["--help"], "help"),
    (&["--version"], "version"),
];

#[test]
fn options_tell_the_daemon(rt: HostRuntime) -> Result<(), Fail> {
    let alloc = rt.alloc();
    for (words, told) in TOLD {
        assert_eq!(rt; reading(alloc, words)?.as_str(), told);
    }
    laws::options_once();
    Ok(())
}

/// Words, and the number of the first that may not stand there.
const BAD: [(&[&str], usize); 45] = [
    (&[], 0),
    (&["disk.img"], 0),
    (&["--blockdev"], 1),
    (&["--help", "--help"], 0),
    (&["--blockdev", FILE, "--version"], 2),
    (&["--blockdev", FILE, "--pidfile", "p"], 2),
    (&["--blockdev", FILE, "--workers"], 3),
    (&["--workers", "2"], 2),
    (&["--blockdev", "driver=raw,node-name=r0,file=f0"], 1),
    (&["--blockdev", FILE, "--blockdev", FILE], 3),
    (&["--blockdev", "driver=file,node-name=f0"], 1),
    (&["--blockdev", "driver=file,filename=d"], 1),
    (&["--blockdev", "driver=file,node-name=0f,filename=d"], 1),
    (
        &[
            "--blockdev",
            "driver=file,node-name=f0,filename=d,x-align=1024",
        ],
        1,
    ),
    (
        &[
            "--blockdev",
            "driver=file,node-name=f0,filename=d,read-only=yes",
        ],
        1,
    ),
    (
        &[
            "--blockdev",
            "driver=file,node-name=f0,filename=d,locking=on",
        ],
        1,
    ),
    (&["--blockdev", "node-name=f0,filename=d"], 1),
    (&["--blockdev", "driver=file,node-name=f0,filename=d,=1"], 1),
    (&["--blockdev", r#"{"driver":"file""#], 1),
    (&["--blockdev", FILE, "--blockdev", "raw,node-name=r0"], 3),
    (
        &[
            "--blockdev",
            FILE,
            "--blockdev",
            "raw,node-name=r0,file=f0,size=18446744073709551616",
        ],
        3,
    ),
    (
        &[
            "--blockdev",
            FILE,
            "--object",
            "throttle-group,id=g,limits.bps-total-max=1",
        ],
        3,
    ),
    (&["--blockdev", FILE, "--object", "secret,id=g"], 3),
    (
        &[
            "--blockdev",
            FILE,
            "--export",
            "vhost-user-blk,id=e,node-name=f0",
        ],
        3,
    ),
    (
        &[
            "--blockdev",
            FILE,
            "--export",
            "nbd,id=e,node-name=f0,bitmaps=b",
        ],
        3,
    ),
    (
        &[
            "--blockdev",
            FILE,
            "--nbd-server",
            "addr.type=inet,addr.host=h,addr.port=65536",
        ],
        3,
    ),
    (
        &[
            "--blockdev",
            FILE,
            "--nbd-server",
            "addr.type=inet,addr.host=h",
        ],
        3,
    ),
    (
        &[
            "--blockdev",
            FILE,
            "--nbd-server",
            "addr.type=inet,addr.port=1",
        ],
        3,
    ),
    (
        &[
            "--blockdev",
            FILE,
            "--nbd-server",
            "addr.type=unix,addr.path=p,addr.port=1",
        ],
        3,
    ),
    (
        &[
            "--blockdev",
            FILE,
            "--nbd-server",
            "addr.type=unix,addr.path=p,max-connections=1",
        ],
        3,
    ),
    (
        &[
            "--blockdev",
            FILE,
            "--nbd-server",
            "addr.type=vsock,addr.path=p",
        ],
        3,
    ),
    (&["--blockdev", FILE, "--nbd-server", "unix"], 3),
    (
        &[
            "--nbd-server",
            "addr.type=unix,addr.path=p",
            "--nbd-server",
            "addr.type=unix,addr.path=p",
            "--blockdev",
            FILE,
        ],
        2,
    ),
    (&["--chardev", "stdio,id=c", "--chardev", "stdio,id=d"], 2),
    (&["--chardev", "pipe,id=c", "--blockdev", FILE], 1),
    (&["--chardev", "stdio", "--blockdev", FILE], 1),
    (
        &[
            "--monitor",
            "chardev=c",
            "--chardev",
            "stdio,id=c",
            "--blockdev",
            FILE,
        ],
        1,
    ),
    (
        &[
            "--chardev",
            "stdio,id=c",
            "--monitor",
            "chardev=d",
            "--blockdev",
            FILE,
        ],
        3,
    ),
    (
        &["--chardev", "stdio,id=c", "--monitor", "c,mode=control"],
        3,
    ),
    (
        &[
            "--chardev",
            "stdio,id=c",
            "--monitor",
            "c",
            "--monitor",
            "c",
        ],
        4,
    ),
    (&["--blockdev", FILE, "--workers", "0"], 3),
    (&["--blockdev", FILE, "--workers", "9"], 3),
    (&["--blockdev", FILE, "--workers", "08"], 3),
    (&["--workers", "2", "--workers"], 2),
    (&["--workers=2", "--blockdev", FILE], 0),
];

#[test]
fn first_bad_word_is_named(rt: HostRuntime) -> Result<(), Fail> {
    let alloc = rt.alloc();
    for (words, at) in BAD {
        let bad = format!(in alloc; "bad {at}")?;
        assert_eq!(rt; reading(alloc, words)?.as_str(), bad.as_str());
    }
    laws::first_bad_word();
    Ok(())
}
