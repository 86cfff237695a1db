//! Command lines and what they ask for.
use command_line::{Command, command_of};
use std::alloc::{AllocError, Global};
use std::test::Fail;

// The words of a line, between bars.
fn words(alloc: Global, line: &str) -> Result<Vec<String>, AllocError> {
    let mut all = Vec::new(alloc);
    for word in line.split('|') {
        all.push(String::from_str(alloc, word)?)?;
    }
    Ok(all)
}

// What is asked for as a text; `?` stands for no world.
fn text(alloc: Global, command: &Option<Command<'_>>) -> Result<String, AllocError> {
    match command {
        None => format!(in alloc; "usage"),
        Some(
            Command::Walk {
                program,
                tasks,
                world,
            },
        ) => format!(in alloc; "walk {program} {tasks} {}", world.unwrap_or("?")),
        Some(
            Command::Run {
                image,
                world,
                brief,
            },
        ) => {
            let brief = if *brief { " brief" } else { "" };
            format!(in alloc; "run {image} {world}{brief}")
        }
        Some(Command::Build { program, scheme }) => format!(in alloc; "build {program} {scheme:?}"),
        Some(Command::Sites { program }) => format!(in alloc; "sites {program}"),
        Some(
            Command::Debug {
                image,
                world,
                script,
            },
        ) => format!(in alloc; "debug {image} {world} {script}"),
        Some(Command::Soak { number }) => format!(in alloc; "soak {number}"),
        Some(
            Command::Audit {
                program,
                world,
                report,
            },
        ) => format!(in alloc; "audit {program} {world} {report}"),
    }
}

static LINES: [(&str, &str); 156] = [
    ("build|p", "build p Undo"),
    ("build|-", "build - Undo"),
    ("build|p|--scheme|undo", "build p Undo"),
    ("build|p|--scheme=bank", "build p Bank"),
    ("--scheme|bank|build|p", "build p Bank"),
    ("build|--scheme|p|bank", "usage"),
    ("build|p|--scheme", "usage"),
    ("build|p|--scheme|Bank", "usage"),
    ("build|p|--scheme|", "usage"),
    ("build|p|--scheme|undo|--scheme|undo", "usage"),
    ("build|p|--brief", "usage"),
    ("build|p|q", "usage"),
    ("build", "usage"),
    ("build|--|--scheme", "build --scheme Undo"),
    ("walk|p|5", "walk p 5 ?"),
    ("walk|p|5|w", "walk p 5 w"),
    ("walk", "usage"),
    ("walk|p", "usage"),
    ("walk|p|5|w|x", "usage"),
    ("--|walk|p|5", "walk p 5 ?"),
    ("walk|--|p|5", "walk p 5 ?"),
    ("walk|p|5|--", "walk p 5 ?"),
    ("walk|p|--|5|--", "walk p 5 --"),
    ("walk|p|1000", "walk p 1000 ?"),
    ("walk|p|1001", "usage"),
    ("walk|p|05", "usage"),
    ("walk|p|0", "walk p 0 ?"),
    ("walk|p|+5", "usage"),
    ("walk|p|", "usage"),
    ("walk||5", "walk  5 ?"),
    ("walk|-|5", "walk - 5 ?"),
    ("walk|p|5|--brief", "usage"),
    ("sites|p", "sites p"),
    ("sites|-", "sites -"),
    ("sites|--|--brief", "sites --brief"),
    ("--|sites|p", "sites p"),
    ("sites|p|--", "sites p"),
    ("sites", "usage"),
    ("sites|p|q", "usage"),
    ("sites|p|--brief", "usage"),
    ("--scheme|undo|sites|p", "usage"),
    ("site|p", "usage"),
    ("debug|i|w|s", "debug i w s"),
    ("debug|-|-|-", "debug - - -"),
    ("--|debug|i|w|s", "debug i w s"),
    ("debug|i|--|w|s", "debug i w s"),
    ("debug|i|w|s|--", "debug i w s"),
    ("debug|--|-i|--brief|--scheme", "debug -i --brief --scheme"),
    ("debug|i|w|", "debug i w "),
    ("debug|debug|debug|debug", "debug debug debug debug"),
    ("debug", "usage"),
    ("debug|i", "usage"),
    ("debug|i|w", "usage"),
    ("debug|i|w|s|x", "usage"),
    ("debug|i|w|s|--brief", "usage"),
    ("--brief|debug|i|w|s", "usage"),
    ("debug|i|w|s|--scheme|undo", "usage"),
    ("debug|i|w|s|--scheme=bank", "usage"),
    ("debug|i|w|-s", "usage"),
    ("Debug|i|w|s", "usage"),
    ("debugger|i|w|s", "usage"),
    ("build|--scheme|bank|p", "build p Bank"),
    ("build|p|--scheme|--|undo", "usage"),
    ("run|i|w", "run i w"),
    ("run|i|w|--brief", "run i w brief"),
    ("--brief|run|i|w", "run i w brief"),
    ("run|--brief|i|w|--brief", "usage"),
    ("run|i|w|--brief=true", "usage"),
    ("run|i|w|--bri", "usage"),
    ("run|i|w|-b", "usage"),
    ("run|i", "usage"),
    ("run|i|--|w", "run i w"),
    ("run|i|--|--brief", "run i --brief"),
    ("run|--|-x|--brief", "run -x --brief"),
    ("--help", "usage"),
    ("-h", "usage"),
    ("--version", "usage"),
    ("help", "usage"),
    ("", "usage"),
    ("run|i|w|--scheme|undo", "usage"),
    ("--=x|run|i|w", "usage"),
    ("run|i|w|---", "usage"),
    ("run|i|w|-é", "usage"),
    ("--scheme=bank|walk|undo|q", "usage"),
    ("run|0", "usage"),
    ("walk|0", "usage"),
    ("0|run|walk|--x|--scheme=undo|build", "usage"),
    ("run|undo|undo", "run undo undo"),
    ("run|--scheme=undo|build|5|5", "usage"),
    ("run|--x|walk", "usage"),
    ("walk|", "usage"),
    ("run|--|build|-", "run build -"),
    ("walk|build|-x|undo|build", "usage"),
    ("q|--x|walk|0|build|--brief", "usage"),
    ("run|--brief=1", "usage"),
    ("run|q|--scheme=bank|--scheme", "usage"),
    ("walk|p|run|--", "usage"),
    ("run|5", "usage"),
    ("run|--scheme=|--scheme=bank|walk|--", "usage"),
    ("--scheme=|--scheme=|-|-|run|p", "usage"),
    ("walk|--scheme=bank|run|--x|q", "usage"),
    ("walk|--scheme=|--scheme=undo||--scheme=bank", "usage"),
    ("run|-|q", "run - q"),
    ("walk|p|--scheme=undo|undo|q", "usage"),
    ("walk||--scheme=bank|--|--", "usage"),
    ("5|--scheme=|--scheme|bank|walk", "usage"),
    ("q|--brief=1|walk", "usage"),
    ("run|walk|p", "run walk p"),
    ("run|undo|build", "run undo build"),
    ("run|walk|--scheme|", "usage"),
    ("run|walk", "usage"),
    ("run|--brief|5|--scheme=|--scheme=|", "usage"),
    ("run|-x|--", "usage"),
    ("walk|--brief=1|undo|run|--brief=1", "usage"),
    ("run|bank|build", "run bank build"),
    ("run|q|walk", "run q walk"),
    ("run||bank", "run  bank"),
    ("run|build|--x|--scheme=undo|p", "usage"),
    ("walk|--|--scheme=bank|5|run", "walk --scheme=bank 5 run"),
    ("walk|walk|-x|--|5", "usage"),
    ("run|--x|walk|--scheme|-x|--scheme=", "usage"),
    ("5|--scheme|p|p|walk", "usage"),
    ("walk|q|undo|bank|-", "usage"),
    ("--scheme|run", "usage"),
    ("walk|--brief|a|5", "usage"),
    ("walk|a|5|b|c", "usage"),
    ("walk|a|01", "usage"),
    ("walk|--|-a|5", "walk -a 5 ?"),
    ("run|--|i|w", "run i w"),
    ("--brief|--|run|i|w", "run i w brief"),
    ("run|i|w|--brief|--", "run i w brief"),
    ("run|i|w|x", "usage"),
    ("walk|p|4294967296", "usage"),
    ("walk|p|18446744073709551616", "usage"),
    ("soak|1", "soak 1"),
    ("soak|0", "soak 0"),
    ("--|soak|4294967295", "soak 4294967295"),
    ("soak|4294967296", "usage"),
    ("soak|01", "usage"),
    ("soak|one", "usage"),
    ("soak", "usage"),
    ("soak|1|2", "usage"),
    ("soak|1|--brief", "usage"),
    ("soak|1|--scheme|undo", "usage"),
    ("audit|p|w|r", "audit p w r"),
    ("audit|-|-|-", "audit - - -"),
    ("--|audit|p|w|r", "audit p w r"),
    ("audit|--|--brief|-w|--scheme", "audit --brief -w --scheme"),
    ("audit|audit|run|", "audit audit run "),
    ("audit", "usage"),
    ("audit|p|w", "usage"),
    ("audit|p|w|r|x", "usage"),
    ("audit|p|w|r|--brief", "usage"),
    ("audit|p|w|r|--scheme=bank", "usage"),
    ("audit|p|w|-r", "usage"),
    ("Audit|p|w|r", "usage"),
];

#[test]
fn a_line_asks_for_its_command(rt: HostRuntime) -> Result<(), Fail> {
    let alloc = rt.alloc();
    for (line, expected) in LINES.iter() {
        let words = words(alloc, line)?;
        let command = command_of(alloc, words.as_slice())?;
        assert_eq!(rt; text(alloc, &command)?.as_str(), *expected, "for {line:?}");
    }
    Ok(())
}
