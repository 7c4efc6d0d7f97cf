// What the program is called for.
use anyhow::bail;
use std::env;
use std::rt::Env;

pub const HELP: &str =
    "ask_file < FILE            lists the sure rows of each question's answer, and tells how the rows asked about stand
ask_file --answer < FILE   shows before that the answer's lines, each with the condition under which it is there
ask_file --explain < FILE  shows that too, and below each possible row two fillings that fit: with one it is there, with one it is not
ask_file --help            shows this

docs/FORMATS.md says what a file holds and what the numbers of a refusal mean; examples/make makes a file from its text.
";

// What is shown beside how rows stand.
#[derive(Clone, Copy, Default)]
pub struct Shown {
    pub lines: bool,
    pub fillings: bool,
}

#[derive(Clone, Copy)]
pub enum Wish {
    Answers(Shown),
    Help,
}

impl Wish {
    // By the program's arguments, of which the last one counts.
    pub fn read(rt: &(impl Env + Alloc)) -> anyhow::Result<Wish> {
        let mut args = env::args(rt)?;
        let _ = args.next();
        let mut wish = Wish::Answers(Shown::default());
        for word in args {
            wish = match word.as_str() {
                "--answer" => Wish::Answers(Shown {
                    lines: true,
                    fillings: false,
                }),
                "--explain" => Wish::Answers(Shown {
                    lines: true,
                    fillings: true,
                }),
                "--help" => Wish::Help,
                other => bail!("there is no argument {other}: see ask_file --help"),
            };
        }
        Ok(wish)
    }
}
