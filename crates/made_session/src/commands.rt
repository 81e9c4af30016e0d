ghost use Rattle.std.specs.Prelude.{◌≡◌, ◌≤◌, ◌<◌, ◌-◌, IfOk};
ghost use Rattle.made_session.specs.Draws.{draw, moved, after_draws};
ghost use Rattle.made_session.specs.Commands.{drawn_order, drawn_line, drawn_command, drawn_all, draws_of, other_than};
ghost use Rattle.fx_rules.specs.declared.command.Command.TheVariants.{Book};

use crate::draws::Draws;
use fx_amounts::{BankId, Lots, Memory, PairId, Price, Side, Units};
use fx_rules::{Command, Life, Sent};
use std::alloc::Global;

/// Draws so many commands of a session of so many banks and pairs.
#[tactic(auto, using(crate::proofs::CommandLemmas::all_more))]
pub(crate) fn draw_commands(
    alloc: Global,
    banks: u8,
    pairs: u8,
    count: u32,
    draws: &mut Draws,
) -> Result<Vec<Sent>, Memory>
    requires banks { (2 ≤ banks) × (banks ≤ 64) }
    requires pairs { (1 ≤ pairs) × (pairs ≤ 32) }
    ensures { IfOk result (λ sent. sent.items ≡ drawn_all banks pairs count draws.old) }
{
    let mut sent = Vec::new(alloc);
    for _place in 0..count {
        let bank = BankId::new(draws.below(banks)).unwrap();
        let kind = draws.below(16);
        let command = draw_command(banks, pairs, bank, kind, draws);
        sent.push(Sent { bank, command })?;
    }
    Ok(sent)
}

/// A command of one of the sixteen kinds.
fn draw_command(banks: u8, pairs: u8, sender: BankId, kind: u8, draws: &mut Draws) -> Command
    requires banks { (2 ≤ banks) × (banks ≤ 64) }
    requires pairs { (1 ≤ pairs) × (pairs ≤ 32) }
    requires kind { kind < 16 }
    ensures command { result ≡ drawn_command banks pairs sender kind draws.old }
    ensures draws { draws.new ≡ after_draws (draws_of kind) draws.old }
{
    match kind {
        0..=11 => {
            let side = if kind % 2 == 0 { Side::Buy } else { Side::Sell };
            draw_order(pairs, side, Life::Day, draws)
        }
        12 => draw_order(pairs, Side::Buy, Life::Ioc, draws),
        13 => draw_order(pairs, Side::Sell, Life::Fok, draws),
        14 => draw_line(banks, sender, draws),
        _ => draw_book(pairs, draws),
    }
}

fn draw_order(pairs: u8, side: Side, life: Life, draws: &mut Draws) -> Command
    requires pairs { (1 ≤ pairs) × (pairs ≤ 32) }
    ensures command { result ≡ drawn_order pairs side life draws.old }
    ensures draws { draws.new ≡ after_draws 3 draws.old }
{
    let pair = PairId::new(draws.below(pairs)).unwrap();
    let price = Price::new(9950 + u32::from(draws.below(101))).unwrap();
    let lots = Lots::new(1 + u32::from(draws.below(20))).unwrap();
    Command::Order {
        side,
        pair,
        price,
        lots,
        life,
    }
}

fn draw_line(banks: u8, sender: BankId, draws: &mut Draws) -> Command
    requires banks { (2 ≤ banks) × (banks ≤ 64) }
    ensures command { result ≡ drawn_line banks sender draws.old }
    ensures draws { draws.new ≡ after_draws 2 draws.old }
{
    let bank = draw_other(banks, sender, draws);
    let limit = Units::new(1000 * u64::from(draws.below(21))).unwrap();
    Command::Line { bank, limit }
}

/// A bank that is not the sender.
fn draw_other(banks: u8, sender: BankId, draws: &mut Draws) -> BankId
    requires banks { (2 ≤ banks) × (banks ≤ 64) }
    ensures bank { result ≡ other_than sender (draw 1 (banks - 1) draws.old) }
    ensures draws { draws.new ≡ moved draws.old }
{
    let drawn = draws.below(banks - 1);
    let other = if usize::from(drawn) < sender.index() {
        drawn
    } else {
        drawn + 1
    };
    BankId::new(other).unwrap()
}

fn draw_book(pairs: u8, draws: &mut Draws) -> Command
    requires pairs { (1 ≤ pairs) × (pairs ≤ 32) }
    ensures command { result ≡ Book (draw 1 pairs draws.old) }
    ensures draws { draws.new ≡ moved draws.old }
{
    let pair = PairId::new(draws.below(pairs)).unwrap();
    Command::Book { pair }
}
