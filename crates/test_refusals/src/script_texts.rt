//! Scripts as text: read, and written again.

ghost use Rattle.std.specs.Prelude.{IfOk};
ghost use Rattle.ws_scripts.specs.Scripts.{CanBeRun};

use crate::tally::Tally;
use std::alloc::Global;
use ws_base::{NoMemory, TextFault};
use ws_suite::{Case, read_script, write_script};

/// A script with each notation of data, and each kind of line.
const TEXT: &str = "\
# a comment
chop octets 3

text fin=0 \"Hello\"
ping 2a*126
cont rsv=4 key=37fa213d form=eight 20776f726c64
wait
raw 8900
close=1000 \"b\\u00fcy\\n\"
close=1001
";

/// What is written of it.
const WRITTEN: &str = "\
chop octets 3
text fin=0 48656c6c6f
ping 2a*126
raw c0ff000000000000000637fa213d178d4e4f5b9e
wait
raw 8900
close 03e862c3bc790a
close 03e9
";

/// Reads the script, and writes it.
pub fn play(alloc: Global, tally: &mut Tally) -> Result<(), NoMemory> {
    match read_again(alloc, tally) {
        Ok(case) => {
            let text = write_again(alloc, &case, tally)?;
            tally.compare(text.as_slice() == WRITTEN.as_bytes());
        }
        Err(TextFault::NoMemory) => return Err(NoMemory),
        Err(TextFault::Damaged(_)) => tally.compare(false),
    }
    Ok(())
}

/// One reading, made again where memory runs out.
fn read_again(alloc: Global, tally: &mut Tally) -> Result<Case, TextFault>
    ensures { IfOk result (λ case. CanBeRun case) }
{
    tally.call();
    match read(alloc) {
        Err(TextFault::NoMemory) => {
            tally.refuse("read_script");
            read(alloc)
        }
        answer => answer,
    }
}

fn read(alloc: Global) -> Result<Case, TextFault>
    ensures { IfOk result (λ case. CanBeRun case) }
{
    read_script(alloc, TEXT.as_bytes())
}

/// One writing, made again where memory runs out.
fn write_again(alloc: Global, case: &Case, tally: &mut Tally) -> Result<Vec<u8>, NoMemory>
    requires { CanBeRun case.now }
{
    tally.call();
    match write(alloc, case) {
        Ok(text) => Ok(text),
        Err(NoMemory) => {
            tally.refuse("write_script");
            write(alloc, case)
        }
    }
}

fn write(alloc: Global, case: &Case) -> Result<Vec<u8>, NoMemory>
    requires { CanBeRun case.now }
{
    write_script(alloc, case)
}
