//! The ranges that the words of a run tell.

ghost use Rattle.std.specs.Prelude.{◌≡◌, IfOk, map};
ghost use Rattle.std.specs.List.{AllByRecursion};
ghost use Rattle.run_opening.specs.Banks as opening;
ghost use Rattle.tool_words.specs.Commands.{IsBank};
ghost use Rattle.tool_run.specs.Openings.{AreRanges};

use sdt_fault::NoMemory;
use sdt_word::Range32;
use std::alloc::Global;
use tool_words::Bank;

fn range_of(bank: &Bank) -> Range32
    requires { IsBank bank.now }
    ensures told { (result.base ≡ bank.now.base) × (result.size ≡ bank.now.size) }
    ensures bank { opening.IsBank result }
{
    Range32 {
        base: bank.base,
        size: u64::from(bank.size),
    }
}

/// The ranges of banks, in their order.
pub fn ranges(alloc: Global, banks: &[Bank]) -> Result<Vec<Range32>, NoMemory>
    requires { AllByRecursion IsBank banks.now }
    ensures told { IfOk result (λ ranges. AreRanges banks.now ranges.items) }
    ensures banks { IfOk result (λ ranges. AllByRecursion opening.IsBank ranges.items) }
{
    let mut ranges = Vec::new(alloc);
    for bank in banks {
        ranges.push(range_of(bank))?;
    }
    Ok(ranges)
}
