//! The files that a command line names.

ghost use Rattle.std.specs.Prelude.{◌≡◌, IfErr, IfOk, None};

use crate::command_job::LineFault;
use crate::command_line::CommandLine;

/// The file that a line reads instead of standard input; `None` if the line is rejected.
pub fn file_of_line<'a>(line: &Result<CommandLine<'a>, LineFault>) -> Option<&'a str>
    ensures line { IfOk line.now (λ line. result ≡ line.file) }
    ensures refused { IfErr line.now (λ _. result ≡ None) }
{
    match line {
        Ok(line) => line.file,
        Err(_) => None,
    }
}

/// The file that a line writes instead of standard output; `None` if the line is rejected.
pub fn output_of_line<'a>(line: &Result<CommandLine<'a>, LineFault>) -> Option<&'a str>
    ensures line { IfOk line.now (λ line. result ≡ line.output) }
    ensures refused { IfErr line.now (λ _. result ≡ None) }
{
    match line {
        Ok(line) => line.output,
        Err(_) => None,
    }
}
