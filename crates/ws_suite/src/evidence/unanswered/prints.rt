//! How many payloads have each fingerprint.

ghost use Rattle.std.specs.Prelude.{◌≡◌, ◌+◌, ◌-◌, ◌<◌, ◌↔◌, IsTrue, OnErr, OnOk};
ghost use Rattle.std.specs.BTreeMap.{IsUnchanged};
ghost use Rattle.ws_suite.specs.InnerUnanswered.{ChangesOnly, print_count};

use std::collections::BTreeMap;
use ws_base::NoMemory;

/// How many payloads have each fingerprint. One that none has isn't listed.
pub(super) type Prints = BTreeMap<u64, u32>;

/// How many have this one.
fn print_count(prints: &Prints, print: u64) -> u32
    ensures { result ≡ print_count prints.now print }
{
    prints.get(&print).copied().unwrap_or(0)
}

/// Whether any has it.
pub(super) fn is_counted(prints: &Prints, print: u64) -> bool
    ensures { IsTrue result ↔ (0 < print_count prints.now print) }
{
    print_count(prints, print) > 0
}

/// One more has it.
pub(super) fn count_one(prints: &mut Prints, print: u64) -> Result<(), NoMemory>
    ensures ok { OnOk result (ChangesOnly prints.old prints.new print (print_count prints.old print + 1)) }
    ensures err { OnErr result (IsUnchanged prints.old prints.new) }
{
    let Some(count) = print_count(prints, print).checked_add(1) else {
        return Err(NoMemory);
    };
    prints.insert(print, count)?;
    Ok(())
}

/// One less has it.
pub(super) fn discount_one(prints: &mut Prints, print: u64)
    ensures { ChangesOnly prints.old prints.new print (print_count prints.old print - 1) }
{
    let count = print_count(prints, print);
    if count > 1 {
        // It is listed, so this takes no memory.
        let _ = prints.insert(print, count - 1);
    } else {
        let _ = prints.remove(&print);
    }
}
