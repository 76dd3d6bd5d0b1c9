//! The words of commands.
use std::alloc::Global;
use std::test::Fail;
use words_line::{Command, WordFault, WordsErr, read_words};

/// A case a line: the words, parted by single spaces, so that two spaces have an empty word between them;
/// and the command that they ask for, or the first fault.
const CASES: &str = "\
run a.toml --host-ticks 4 --view journal|run a.toml 4 Journal\n\
run --view journal a.toml --host-ticks=4|run a.toml 4 Journal\n\
run a.toml --host-ticks 4 --view events|run a.toml 4 Events\n\
run a.toml --host-ticks 4 --view traces|run a.toml 4 Traces\n\
run a.toml --host-ticks 4 --view summary|run a.toml 4 Summary\n\
run a.toml --host-ticks 4|run a.toml 4 Summary\n\
--host-ticks 4 run a.toml|run a.toml 4 Summary\n\
--view=events --host-ticks=0 run a.toml|run a.toml 0 Events\n\
run --host-ticks 1000000 a.toml|run a.toml 1000000 Summary\n\
run a.toml --host-ticks 1000001|BadNumber\n\
run a.toml --host-ticks 04|BadNumber\n\
run a.toml --host-ticks +4|BadNumber\n\
run a.toml --host-ticks 4.0|BadNumber\n\
run a.toml --host-ticks 18446744073709551616|BadNumber\n\
run a.toml --host-ticks=|BadNumber\n\
run a.toml --host-ticks  --view journal|BadNumber\n\
run a.toml --host-ticks -|BadNumber\n\
run a.toml --host-ticks -4|NotWords\n\
run a.toml --host-ticks=-4|BadNumber\n\
run a.toml --host-ticks|NotWords\n\
run a.toml --host-ticks --view journal|NotWords\n\
run a.toml --host-ticks 4 --view fast|BadView\n\
run a.toml --host-ticks 4 --view Journal|BadView\n\
run a.toml --host-ticks 4 --view=|BadView\n\
run a.toml --host-ticks 4 --view |BadView\n\
run a.toml --host-ticks 4 --view|NotWords\n\
run a.toml --host-ticks 4 --host-ticks 4|NotWords\n\
run a.toml --host-ticks=4 --host-ticks=5|NotWords\n\
run a.toml --view journal --host-ticks 4 --view journal|NotWords\n\
run a.toml|MissingOption\n\
run a.toml --view journal|MissingOption\n\
run a.toml --view fast|MissingOption\n\
run a.toml --host-ticks x --view fast|BadNumber\n\
run  --host-ticks 4|EmptyName\n\
run |EmptyName\n\
run  --host-ticks x --view fast|EmptyName\n\
run|NotWords\n\
run --host-ticks 4|NotWords\n\
run a.toml b.toml --host-ticks 4|NotWords\n\
run a.toml --host 4|NotWords\n\
run a.toml --host-ticks 4 -v|NotWords\n\
run a.toml --help|NotWords\n\
run a.toml -h|NotWords\n\
run a.toml --version|NotWords\n\
run - --host-ticks 4|run - 4 Summary\n\
- a.toml --host-ticks 4|UnknownCommand\n\
run -a.toml --host-ticks 4|NotWords\n\
run --host-ticks 4 -- -a.toml|run -a.toml 4 Summary\n\
--host-ticks 4 -- run -a.toml|run -a.toml 4 Summary\n\
run --host-ticks 4 -- --view|run --view 4 Summary\n\
run -- --view --host-ticks 4|NotWords\n\
plan a.toml|plan a.toml\n\
plan -- -a.toml|plan -a.toml\n\
plan --|NotWords\n\
plan |EmptyName\n\
plan  --view journal|EmptyName\n\
plan a.toml --view journal|ExtraOption\n\
plan a.toml --host-ticks 4|ExtraOption\n\
plan a.toml --host-ticks x --view fast|ExtraOption\n\
gen 4 --host-ticks 400|gen 4 400\n\
gen 2 --host-ticks 0|gen 2 0\n\
gen --host-ticks=1000000 32|gen 32 1000000\n\
gen 1 --host-ticks 4|BadNumber\n\
gen 33 --host-ticks 4|BadNumber\n\
gen 04 --host-ticks 4|BadNumber\n\
gen  --host-ticks 4|BadNumber\n\
gen 33 --view fast|BadNumber\n\
gen 4 --view summary --host-ticks 4|ExtraOption\n\
gen 4 --view fast|ExtraOption\n\
gen 4|MissingOption\n\
gen 4 --host-ticks 1000001|BadNumber\n\
go a.toml|UnknownCommand\n\
--view=journal  a.toml|UnknownCommand\n\
RUN a.toml --host-ticks x|UnknownCommand\n\
go  --view fast|UnknownCommand\n\
go|NotWords\n\
|NotWords\n\
";

/// The words of a line.
fn words_of(alloc: Global, line: &str) -> Result<Vec<String>, Fail> {
    let mut words = Vec::new(alloc);
    for word in line.split(' ') {
        words.push(String::from_str(alloc, word)?)?;
    }
    Ok(words)
}

/// What a command is, in one line.
fn told(alloc: Global, command: &Command) -> Result<String, Fail> {
    let text = match command {
        Command::Run {
            file,
            host_ticks,
            view,
        } => format!(in alloc; "run {} {host_ticks} {view:?}", file.as_str())?,
        Command::Plan { file } => format!(in alloc; "plan {}", file.as_str())?,
        Command::Gen { n, host_ticks } => format!(in alloc; "gen {n} {host_ticks}")?,
    };
    Ok(text)
}

/// What these words are read as, in one line.
fn answer(alloc: Global, words: &[String]) -> Result<String, Fail> {
    let text = match read_words(alloc, words) {
        Ok(command) => told(alloc, &command)?,
        Err(WordsErr::Fault(fault)) => format!(in alloc; "{fault:?}")?,
        Err(WordsErr::NoMemory) => format!(in alloc; "no memory")?,
    };
    Ok(text)
}

/// Whether a case's words are read as it tells.
fn is_right(alloc: Global, case: &str) -> Result<bool, Fail> {
    let Some((line, wanted)) = case.split_once('|') else {
        return Ok(false);
    };
    let words = words_of(alloc, line)?;
    let text = answer(alloc, &words)?;
    Ok(text.as_str() == wanted)
}

#[test]
fn words_are_read(rt: HostRuntime) -> Result<(), Fail> {
    for case in CASES.lines() {
        let right = is_right(rt.alloc(), case)?;
        assert!(rt; right, "at {case}");
    }
    Ok(())
}

#[test]
fn no_words_are_no_command(rt: HostRuntime) {
    let none: Vec<String> = Vec::new(rt.alloc());
    let refused = matches!(
        read_words(rt.alloc(), &none),
        Err(WordsErr::Fault(WordFault::NotWords))
    );
    assert!(rt; refused);
}

/// A word of any letters is taken as it is.
#[test]
fn names_have_any_letters(rt: HostRuntime) -> Result<(), Fail> {
    let words = words_of(rt.alloc(), "plan d\u{fc}ne.toml")?;
    let text = answer(rt.alloc(), &words)?;
    assert!(rt; text.as_str() == "plan d\u{fc}ne.toml");
    Ok(())
}
