ghost use Rattle.std.specs.Prelude.{◌≡◌, IfOk};
ghost use Rattle.fx_amounts.specs.Quantity.{IsWeight};
ghost use Rattle.credit_lines.specs.Credit.{IsCredit};
ghost use Rattle.credit_raise.specs.inside.Paying.{paid_all};

use crate::pay::pay_all;
use credit_lines::CreditLines;
use fx_amounts::Memory;
use fx_rules::Fill;
use std::alloc::Global;
use std::marker::Model;

/// Credit lines in memory of their own, so that little is moved with what may have some.
#[derive(Drop)]
pub(crate) struct OwnLines {
    lines: Box<CreditLines>,
}

impl Model for OwnLines {
    ghost use Rattle.credit_lines.specs.Credit.{Credit};

    ghost Value = { Credit };

    ghost view = { λ own. own.lines.value };
}

impl OwnLines {
    /// These lines. `Memory` when out of memory.
    pub(crate) fn new(alloc: Global, lines: CreditLines) -> Result<OwnLines, Memory>
        ensures value { IfOk result (λ own. own ≡ lines) }
    {
        Ok(OwnLines {
            lines: Box::new(alloc, lines)?,
        })
    }

    /// They can be read.
    pub(crate) fn get(&self) -> &CreditLines
        ensures value { result.now ≡ self.now }
    {
        &self.lines
    }

    /// Fills in a pair are paid for, where a lot costs `weight` credit units. The pair's book was made for so many banks.
    pub(crate) fn pay(&mut self, banks: usize, weight: u32, fills: &[Fill])
        requires banks { banks ≡ self.old.banks }
        requires weight { IsWeight weight }
        requires valid { IsCredit self.old }
        ensures value { self.new ≡ paid_all weight self.old fills.now }
        ensures valid { IsCredit self.new }
    {
        pay_all(&mut self.lines, banks, weight, fills);
    }
}
