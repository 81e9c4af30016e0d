ghost use Rattle.std.specs.Prelude.{◌≡◌, ◌≤◌, ◌<◌, map, IfOk};
ghost use Rattle.fx_rules.specs.Lists.{below};
ghost use Rattle.made_session.specs.Session.{made_bank, made_base, made_pair, made_limits, drawn_limit, after_limit, after_limits};

use crate::draws::Draws;
use fx_amounts::{Memory, Units};
use fx_rules::{Code, Name, PairRule};
use std::alloc::Global;

/// The names of so many banks.
#[tactic(auto, using(crate::proofs::Listed::made_more))]
pub(crate) fn bank_names(alloc: Global, banks: u8) -> Result<Vec<Name>, Memory>
    requires { banks ≤ 64 }
    ensures { IfOk result (λ names. names.items ≡ map made_bank (below banks)) }
{
    let mut names = Vec::new(alloc);
    for bank in 0..banks {
        names.push(bank_name(bank))?;
    }
    Ok(names)
}

/// `B`, and the bank's number from 1 in two digits.
fn bank_name(bank: u8) -> Name
    requires { bank < 64 }
    ensures { result ≡ made_bank bank }
{
    let number = bank + 1;
    let text = [b'B', b'0' + number / 10, b'0' + number % 10];
    Name::from_bytes(&text).unwrap()
}

/// So many pairs.
#[tactic(auto, using(crate::proofs::Listed::made_more))]
pub(crate) fn pair_rules(alloc: Global, pairs: u8) -> Result<Vec<PairRule>, Memory>
    requires { pairs ≤ 32 }
    ensures { IfOk result (λ rules. rules.items ≡ map made_pair (below pairs)) }
{
    let mut rules = Vec::new(alloc);
    for pair in 0..pairs {
        rules.push(PairRule {
            base: base_code(pair),
            quote: Code::from_bytes(b"ZZZ").unwrap(),
            decimals: 2,
            lot: 1000,
            weight: 10 + u32::from(pair),
        })?;
    }
    Ok(rules)
}

/// `AAA` to `AAZ`, and from there on `ABA` to `ABF`.
fn base_code(pair: u8) -> Code
    requires { pair < 32 }
    ensures { result ≡ made_base pair }
{
    let text = if pair < 26 {
        [b'A', b'A', b'A' + pair]
    } else {
        [b'A', b'B', b'A' + (pair - 26)]
    };
    Code::from_bytes(&text).unwrap()
}

/// The limits of so many banks, row by row.
#[tactic(auto, using(crate::proofs::Listed::made_more, crate::proofs::SessionLemmas::before_more))]
pub(crate) fn draw_limits(alloc: Global, banks: u8, draws: &mut Draws) -> Result<Vec<Units>, Memory>
    requires { (1 ≤ banks) × (banks ≤ 64) }
    ensures limits { IfOk result (λ limits. limits.items ≡ made_limits banks draws.old) }
    ensures draws { IfOk result (λ _. draws.new ≡ after_limits banks draws.old) }
{
    let mut limits = Vec::new(alloc);
    for place in 0..u16::from(banks) * u16::from(banks) {
        let is_own = place / u16::from(banks) == place % u16::from(banks);
        limits.push(draw_limit(is_own, draws))?;
    }
    Ok(limits)
}

/// The limit that a bank sets on a bank. The one on itself is not drawn.
fn draw_limit(is_own: bool, draws: &mut Draws) -> Units
    ensures limit { result ≡ drawn_limit is_own draws.old }
    ensures draws { draws.new ≡ after_limit is_own draws.old }
{
    if is_own {
        return Units::new(0).unwrap();
    }
    Units::new(1000 * (1 + u64::from(draws.below(20)))).unwrap()
}
