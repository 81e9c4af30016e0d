ghost use Rattle.std.specs.Prelude.{◌<◌};
ghost use Rattle.fx_edges.specs.Gathered.{Gathered};
ghost use Rattle.fx_rules.specs.Session.{bank_count, pair_count};
ghost use Rattle.reply_lines.specs.Report.{volume_line, use_line, net_line, report_of};
ghost use Rattle.reply_lines.specs.inside.Report.{IsReportOf};

use crate::lines::{Print, write_lines};
use day_report::{Net, Report, Use, Volume};
use fx_edges::{Pieces, Sink, SinkFault};
use fx_rules::Session;
use fx_text::LineText;

/// Writes a report.
#[tactic(auto, unfolding(crate::specs::Report::report_of))]
pub(crate) fn write_report<K: Sink>(
    session: &Session,
    report: &Report,
    pieces: &mut Pieces,
    out: &mut K,
) -> Result<(), SinkFault>
    requires report { IsReportOf session.now report.now }
    ensures wrote { Gathered K.written K.faults pieces.old out.old pieces.new out.new (report_of session.now report.now.volumes report.now.uses report.now.nets) result }
{
    pieces.put(b"REPORT\n", out)?;
    write_lines(session, report.volumes.as_slice(), pieces, out)?;
    write_lines(session, report.uses.as_slice(), pieces, out)?;
    write_lines(session, report.nets.as_slice(), pieces, out)
}

impl Print for Volume {
    ghost fits = { λ h volume. volume.pair < pair_count h };

    ghost text = { volume_line };

    fn make_line(&self, session: &Session, line: &mut LineText) {
        line.clear();
        line.push(b"VOLUME");
        line.push_field(&session.rule(self.pair).text());
        line.push_number_field(self.fills);
        line.push_number_field(self.lots);
        line.push_wide_field(self.base);
        line.push_wide_field(self.quote);
        line.push_byte(b'\n');
    }
}

impl Print for Use {
    ghost fits = { λ h credit. (credit.a < bank_count h) × (credit.b < bank_count h) };

    ghost text = { use_line };

    fn make_line(&self, session: &Session, line: &mut LineText) {
        line.clear();
        line.push(b"USE");
        line.push_field(session.name(self.a));
        line.push_field(session.name(self.b));
        line.push_number_field(self.limit_ab.get());
        line.push_number_field(self.limit_ba.get());
        line.push_number_field(self.used.get());
        line.push_number_field(self.eff.get());
        line.push_byte(b'\n');
    }
}

impl Print for Net {
    ghost fits = { λ h net. net.bank < bank_count h };

    ghost text = { net_line };

    fn make_line(&self, session: &Session, line: &mut LineText) {
        line.clear();
        line.push(b"NET");
        line.push_field(session.name(self.bank));
        line.push_field(self.currency.as_bytes());
        line.push_signed_field(self.amount);
        line.push_byte(b'\n');
    }
}
