use hg_command::{MakeRequest, Request, RunRequest, StormRequest, read_words};
use std::alloc::Global;
use std::process::Abort;
use std::test::Fail;

/// The program's name, and the words between the bars.
fn words_of(alloc: Global, line: &str) -> Result<Vec<String>, Fail> {
    let mut words = vec![in alloc; String::from_str(alloc, "hashgraph")?]?;
    for word in line.split('|') {
        words.push(String::from_str(alloc, word)?)?;
    }
    Ok(words)
}

// The command lines of runs of an implementation in another language, which takes the first ones and refuses the others.
const TAKEN: [&str; 14] = [
    "run|--members|members.toml|--script|script.txt",
    "run|--script|script.txt|--members|members.toml",
    "run|--members|none|--script|script.txt",
    "run|--members|members.toml|--script|none",
    "run|--members|none|--script|none",
    "run|--members||--script|script.txt",
    "run|--members=|--script=script.txt",
    "run|--members|-|--script|script.txt",
    "run|--members|members.toml|--script|script.txt|--workers|16",
    "make|--members|2|--lines|0|--seed|0",
    "make|--members|128|--lines|1000000|--seed|18446744073709551615",
    "make|--seed|+7|--lines|003|--members=2",
    "storm|--members|members.toml|--turns|0|--seed|7|--room|65536",
    "storm|--members|members.toml|--turns|1|--seed|18446744073709551615|--room|1",
];

const REFUSED: [&str; 49] = [
    "run",
    "run|--members|members.toml",
    "run|--members|members.toml|--script|script.txt|more",
    "run|--members|-x|--script|script.txt",
    "--help",
    "run|--script|script.txt",
    "run|--script",
    "run|members.toml|script.txt",
    "run|help",
    "run|--members|members.toml|--script|script.txt|--workers|17",
    "run|--members|members.toml|--script|script.txt|--workers|-1",
    "run|--members|members.toml|--script|script.txt|--workers=-1",
    "run|--members|members.toml|--script|script.txt|--workers|x",
    "run|--members|members.toml|--script|script.txt|--workers|1.0",
    "run|--members|members.toml|--script|script.txt|--workers",
    "run|--members|members.toml|--script|script.txt|--workers|1|--workers|1",
    "run|--members|members.toml|--script|script.txt|--help",
    "run|--members|members.toml|--script|script.txt|-h",
    "run|--members|members.toml|--script|script.txt|extra",
    "run|--members|members.toml|--script|script.txt|--seed|1",
    "run|--members|members.toml|--script|script.txt|-w|1",
    "run|--members|members.toml|--script|script.txt|--worker|1",
    "run|--members|members.toml|--script|script.txt|--workers=",
    "run|--members|members.toml|--script|script.txt|--members|members.toml",
    "run|--members|members.toml|--script|script.txt|--script=script.txt",
    "run|--members|members.toml|--script|script.txt|--workers|99999999999999999999999",
    "run|--members|members.toml|--script|script.txt|--|extra",
    "run|--members|-m|--script|script.txt",
    "run|--members|--script|--script|script.txt",
    "run|--members|--|x|--script|script.txt",
    "run|run|--members|members.toml|--script|script.txt",
    "run|--member|members.toml|--script|script.txt",
    "run|--MEMBERS|members.toml|--script|script.txt",
    "run|-members|members.toml|--script|script.txt",
    "make",
    "make|--members|1|--lines|0|--seed|7",
    "make|--members|129|--lines|0|--seed|7",
    "make|--members|2|--lines|1000001|--seed|7",
    "make|--members|2|--lines|0|--seed|18446744073709551616",
    "make|--members|2|--lines|0|--seed|-1",
    "make|--members|2|--lines|0",
    "make|--members|2|--lines|0|--seed|7|--workers|17",
    "make|--members|members.toml|--script|script.txt",
    "storm|--members|members.toml|--turns|10001|--seed|1",
    "storm|--members|members.toml|--turns|1|--seed|x",
    "storm|--members|members.toml|--turns|1|--seed|1|--room|0",
    "storm|--members|members.toml|--turns|1|--seed|1|--room|65537",
    "storm|--members|members.toml|--seed|1",
    "storm|--members|members.toml|--turns|1",
];

/// Whether the words of this line ask for something is as it must be.
fn expect_taken(rt: &impl Abort, alloc: Global, line: &str, taken: bool) -> Result<(), Fail> {
    let words = words_of(alloc, line)?;
    let request = read_words(alloc, words.as_slice())?;
    assert!(rt; request.is_some() == taken, "{line}");
    Ok(())
}

#[test]
fn lines_are_taken(rt: HostRuntime) -> Result<(), Fail> {
    for line in TAKEN {
        expect_taken(&rt, rt.alloc(), line, true)?;
    }
    Ok(())
}

#[test]
fn lines_are_refused(rt: HostRuntime) -> Result<(), Fail> {
    for line in REFUSED {
        expect_taken(&rt, rt.alloc(), line, false)?;
    }
    Ok(())
}

#[test]
fn names_are_handed_over(rt: HostRuntime) -> Result<(), Fail> {
    let words = words_of(rt.alloc(), "run|--script=a b|--workers|0|--members|m.toml")?;
    let request = read_words(rt.alloc(), words.as_slice())?;
    let wanted = Request::Run(RunRequest {
        members: "m.toml",
        script: "a b",
        workers: 0,
    });
    assert_eq!(rt; request, Some(wanted));
    let made = words_of(
        rt.alloc(),
        "make|--workers|4|--members|7|--seed|1|--lines|2000",
    )?;
    let wanted = Request::Make(MakeRequest {
        members: 7,
        lines: 2000,
        seed: 1,
        workers: 4,
    });
    assert_eq!(rt; read_words(rt.alloc(), made.as_slice())?, Some(wanted));
    let storm = words_of(rt.alloc(), "storm|--members|m.toml|--turns|3|--seed|7")?;
    let wanted = Request::Storm(StormRequest {
        members: "m.toml",
        turns: 3,
        seed: 7,
        room: 1_024,
    });
    assert_eq!(rt; read_words(rt.alloc(), storm.as_slice())?, Some(wanted));
    assert_eq!(rt; read_words(rt.alloc(), &[])?, None);
    Ok(())
}
