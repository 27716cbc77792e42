// A script over disks in memory that stop at each of their calls. The program's run over a store is
// `top` over this keeper.
use mk_disks::{Done, Task, count_in, done_again, files};
use mk_outside::{Bytes, FileRow, FileRows, Keeper, SureFiles, SureSink, SureSource, Text};
use mk_session::{Memory, Status, top};
use std::alloc::Global;
use std::test::Fail;

// A carbon and an oxygen with a bond, and methoxymethane.
static CHAINS: [(&str, &str); 2] = [
    (
        "co",
        "\n\n\n  2  1\n                               C\n                               O\n  1  2  1\nM  END\n",
    ),
    (
        "coc",
        "\n\n\n  3  2\n                               C\n                               O\n                               C\n  1  2  1\n  2  3  1\nM  END\n",
    ),
];

fn text(alloc: Global, text: &str) -> Result<Bytes, Memory> {
    Ok(Bytes::of(Vec::from_slice(alloc, text.as_bytes())?))
}

fn chains(alloc: Global) -> Result<FileRows, Memory> {
    let mut rows = FileRows::new(alloc);
    for (name, bytes) in CHAINS.iter() {
        rows.push(FileRow {
            name: Text::of(String::from_str(alloc, name)?),
            bytes: text(alloc, bytes)?,
        })?;
    }
    Ok(rows)
}

// What a script over the keeper writes, and how it ends. Each object is made in a function of its
// own, since the prover goes through all that is let go at each way out.
fn ran<K: Keeper>(
    alloc: Global,
    keeper: &mut K,
    script: &str,
) -> Result<(Vec<u8>, Status), Memory> {
    let mut files = SureFiles::new(chains(alloc)?);
    ran_over(alloc, &mut files, keeper, script)
}

fn ran_over<K: Keeper>(
    alloc: Global,
    files: &mut SureFiles,
    keeper: &mut K,
    script: &str,
) -> Result<(Vec<u8>, Status), Memory> {
    let mut input = SureSource::new(text(alloc, script)?);
    ran_from(alloc, files, &mut input, keeper)
}

fn ran_from<K: Keeper>(
    alloc: Global,
    files: &mut SureFiles,
    input: &mut SureSource,
    keeper: &mut K,
) -> Result<(Vec<u8>, Status), Memory> {
    let mut output = SureSink::new(Bytes::new(alloc));
    let ended = top(alloc, &[], files, input, &mut output, keeper);
    with_status(alloc, output.bytes(), ended)
}

fn with_status(alloc: Global, text: &[u8], ended: Status) -> Result<(Vec<u8>, Status), Memory> {
    Ok((Vec::from_slice(alloc, text)?, ended))
}

// What is written by none, one, two and all of the commands, and what is then listed.
static STEPS: [(&str, &str); 4] = [
    ("", "records 0\nqueries 0\ncursors 0\nnext 1 1\n"),
    (
        "loaded 1 first 1\n",
        "records 1\nrecord 1\nqueries 0\ncursors 0\nnext 2 1\n",
    ),
    (
        "loaded 1 first 1\nkept q\n",
        "records 1\nrecord 1\nqueries 1\nquery q\ncursors 0\nnext 2 1\n",
    ),
    (
        "loaded 1 first 1\nkept q\nhit 1 choice map 1 2\nmore 1\n",
        "records 1\nrecord 1\nqueries 1\nquery q\ncursors 1\ncursor 1 q\nnext 2 2\n",
    ),
];

// What is left of the script after none, one, two and all of its commands, and what that writes.
static RESTS: [(&str, &str); 4] = [
    (
        "load coc\nquery q co\nsearch q 1\n",
        "loaded 1 first 1\nkept q\nhit 1 choice map 1 2\nmore 1\n",
    ),
    (
        "query q co\nsearch q 1\n",
        "kept q\nhit 1 choice map 1 2\nmore 1\n",
    ),
    ("search q 1\n", "hit 1 choice map 1 2\nmore 1\n"),
    ("", ""),
];

// How many commands wrote this.
fn answered(answers: &[u8]) -> Option<usize> {
    STEPS
        .iter()
        .position(|(wanted, _)| answers == wanted.as_bytes())
}

fn is_listed_once<K: Keeper>(
    alloc: Global,
    keeper: &mut K,
    commands: usize,
) -> Result<bool, Memory> {
    match STEPS.get(commands) {
        Some((_, wanted)) => {
            let (answers, ended) = ran(alloc, keeper, "list\n")?;
            Ok(ended == Status::Done && answers.as_slice() == wanted.as_bytes())
        }
        None => Ok(false),
    }
}

// How many of the commands are answered over the keeper. None where the answers aren't whole, or
// the status isn't that of so many.
fn commands_answered<K: Keeper>(alloc: Global, keeper: &mut K) -> Result<Option<usize>, Memory> {
    let (answers, ended) = ran(alloc, keeper, "load coc\nquery q co\nsearch q 1\n")?;
    Ok(match answered(answers.as_slice()) {
        Some(commands) if (ended == Status::Done) == (commands == 3) => Some(commands),
        _ => None,
    })
}

// How many commands made what the keeper holds: so many, or one more. None where it is neither.
fn commands_kept<K: Keeper>(
    alloc: Global,
    keeper: &mut K,
    commands: usize,
) -> Result<Option<usize>, Memory> {
    if is_listed_once(alloc, keeper, commands)? {
        return Ok(Some(commands));
    }
    let more = commands.saturating_add(1);
    Ok(if is_listed_once(alloc, keeper, more)? {
        Some(more)
    } else {
        None
    })
}

// Whether the rest of the script, after so many commands, writes what the whole would have written
// there, and leaves the tables of the whole.
fn ends_whole<K: Keeper>(alloc: Global, keeper: &mut K, kept: usize) -> Result<bool, Memory> {
    match RESTS.get(kept) {
        Some((rest, wanted)) => {
            let (answers, ended) = ran(alloc, keeper, rest)?;
            if ended != Status::Done || answers.as_slice() != wanted.as_bytes() {
                return Ok(false);
            }
            is_listed_once(alloc, keeper, 3)
        }
        None => Ok(false),
    }
}

// Whether the keeper holds what so many commands made, or one more, and goes on from there.
fn goes_on<K: Keeper>(alloc: Global, keeper: &mut K, commands: usize) -> Result<bool, Memory> {
    match commands_kept(alloc, keeper, commands)? {
        Some(kept) => ends_whole(alloc, keeper, kept),
        None => Ok(false),
    }
}

#[derive(Clone, Copy)]
enum Scripts {
    /// A script of three commands is run.
    Run,
    /// The tables are listed, which so many commands made, or one more, and the rest of the script
    /// is run: 1 where it writes and leaves what the whole would, else 0.
    GoOn { commands: usize },
}

impl Task for Scripts {
    fn done<K: Keeper>(&self, alloc: Global, keeper: &mut K) -> Result<Done, Memory> {
        let count = match self {
            Scripts::Run => commands_answered(alloc, keeper)?,
            Scripts::GoOn { commands } => Some(usize::from(goes_on(alloc, keeper, *commands)?)),
        };
        Ok(Done {
            count,
            read: Vec::new(alloc),
        })
    }
}

// How many of the commands are answered over files that stop after so many calls. Fails where the
// store then holds neither what they made nor that of one command more, and where the rest of the
// script, run over it, doesn't write and leave what the whole would.
fn stopped(alloc: Global, log: u64, db: u64) -> Result<usize, Fail> {
    let (commands, files) = count_in(alloc, files(alloc, log, db), &Scripts::Run)?;
    if done_again(alloc, files, &Scripts::GoOn { commands })?.count != Some(1) {
        return Err(Fail::new("the tables of no number of commands, or another end of the script"));
    }
    Ok(commands)
}

// Stops the log at each call until all commands are answered, and the database at each of its first
// calls. Says how often so many commands were answered before the log stopped.
fn stop_each(alloc: Global) -> Result<[u32; 4], Fail> {
    let mut seen = [0u32; 4];
    for calls in 0..1000 {
        let commands = stopped(alloc, calls, u64::MAX)?;
        if let Some(count) = seen.get_mut(commands) {
            *count = count.saturating_add(1);
        }
        if commands == 3 {
            break;
        }
    }
    for calls in 0..40 {
        stopped(alloc, u64::MAX, calls)?;
    }
    Ok(seen)
}

#[test]
fn a_stopped_script_goes_on_after_whole_commands(rt: HostRuntime) -> Result<(), Fail> {
    let seen = stop_each(rt.alloc())?;
    assert!(rt; seen[0] > 1 && seen[1] > 1 && seen[2] > 1 && seen[3] == 1);
    Ok(())
}
