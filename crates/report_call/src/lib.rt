// The public call of the match report. It takes any file, any scale and any lists, and ends with totals or a refusal.
#![tactic(auto)]

ghost use Rattle.std.specs.Prelude.{◌≡◌, length};
ghost use Rattle.table.specs.Slices.{laid};
ghost use Rattle.report.specs.Report.{loss_code, match_of, kinds_in, losses_in};
ghost use Rattle.report.specs.Inside.{SmallLoss, SmallTally, SmallTotals};
ghost use Rattle.mark.specs.Marks.{marks_in};
ghost use Rattle.report_call.specs.Call.{room_in, report_answer, filled, report_call, report_kinds, report_losses, report_marks};
ghost use Rattle.report_call.specs.Inside.{with_loss, with_row, Reads, match_in};

use line::Refusal;
use mark::Marking;
use report::{Row, Tally, Totals};
use scoring::Match;

// Why a match is not reported: a refusal with the position's number, from 1, and 0 for a refusal of no one position.
#[derive(Clone, Copy)]
pub struct Unreported {
    pub refusal: Refusal,
    pub position: usize,
}

// Of no one position.
impl From<Refusal> for Unreported {
    ghost from_gives = { λ refusal gives. gives ≡ record { refusal = refusal; position = 0 } };

    fn from(refusal: Refusal) -> Unreported {
        Unreported {
            refusal,
            position: 0,
        }
    }
}

// A loss as it is listed.
fn loss_code(l: Option<u64>) -> i64
    requires { SmallLoss l }
    ensures { result ≡ loss_code l }
{
    match l {
        None => -1,
        Some(n) => n as i64,
    }
}

// The tally of a side with one entry more.
fn with_loss(t: Tally, side: u8, kind: u8, loss: Option<u64>) -> Tally
    requires { SmallTally t × SmallLoss loss }
    ensures { result ≡ with_loss t side kind loss }
{
    match loss {
        Some(n) if kind == side => Tally {
            decisions: t.decisions + 1,
            sum: t.sum + n,
        },
        _ => t,
    }
}

fn with_row(t: Totals, r: Row) -> Totals
    requires { SmallTotals t × SmallLoss r.loss }
    ensures { result ≡ with_row t r }
{
    Totals {
        positions: t.positions + 1,
        max: with_loss(t.max, 1, r.kind, r.loss),
        min: with_loss(t.min, 2, r.kind, r.loss),
    }
}

// The positions one after another. Their kinds, losses and marks go to three lists of 500 entries, which are the caller's own: a refused match
// may leave something in them.
fn read_all(
    file: &[u8],
    scale: Marking,
    kinds: &mut [u8],
    losses: &mut [i64],
    marks: &mut [u8],
) -> Result<Totals, Unreported>
    requires { (length kinds.old ≡ 500) × (length losses.old ≡ 500) × (length marks.old ≡ 500) }
    ensures { Reads (match_of file.now) scale result kinds.old losses.old marks.old kinds.new losses.new marks.new }
{
    // "An empty file gives zeros"
    let mut t = Totals::default();
    let mut reader = Match { file, at: 0 };
    while reader.at < file.len() {
        let n = t.positions;
        if n == 500 {
            let many = Unreported {
                refusal: Refusal::TooMany,
                position: 501,
            };
            return Err(many);
        }
        match reader.here() {
            Err(refusal) => {
                let refused = Unreported {
                    refusal,
                    position: n + 1,
                };
                return Err(refused);
            }
            Ok(p) => {
                kinds[n] = p.row.kind;
                losses[n] = loss_code(p.row.loss);
                marks[n] = scale.mark_code(p.row.loss);
                reader.at += p.size;
                t = with_row(t, p.row);
            }
        }
    }
    Ok(t)
}

// The report by a scale that is known.
fn report_by(
    file: &[u8],
    scale: Marking,
    kinds: &mut [u8],
    losses: &mut [i64],
    marks: &mut [u8],
) -> Result<Totals, Unreported>
    ensures answers { result ≡ report_answer (match_in file.now kinds.old losses.old marks.old) }
    ensures kinds { kinds.new ≡ laid (kinds_in (filled (match_in file.now kinds.old losses.old marks.old))) kinds.old }
    ensures losses { losses.new ≡ laid (losses_in (filled (match_in file.now kinds.old losses.old marks.old))) losses.old }
    ensures marks { marks.new ≡ laid (marks_in scale (filled (match_in file.now kinds.old losses.old marks.old))) marks.old }
{
    let mut own_kinds = [0u8; 500];
    let mut own_losses = [0i64; 500];
    let mut own_marks = [0u8; 500];
    let t = read_all(file, scale, &mut own_kinds, &mut own_losses, &mut own_marks)?;
    let n = t.positions;
    if kinds.len().min(losses.len()).min(marks.len()) < n {
        return Err(Unreported::from(Refusal::NoRoom));
    }
    reading::keep(&own_kinds[..n], kinds);
    reading::keep(&own_losses[..n], losses);
    reading::keep(&own_marks[..n], marks);
    Ok(t)
}

// The report: for any file, any scale's number and any lists. Each list gets an entry for each position, and keeps its others; a refused call
// writes nothing.
pub fn report(
    file: &[u8],
    scale: i64,
    kinds: &mut [u8],
    losses: &mut [i64],
    marks: &mut [u8],
) -> Result<Totals, Unreported>
    ensures answers { result ≡ report_call file.now scale (room_in kinds.old losses.old marks.old) }
    ensures kinds { kinds.new ≡ laid (report_kinds file.now scale (room_in kinds.old losses.old marks.old)) kinds.old }
    ensures losses { losses.new ≡ laid (report_losses file.now scale (room_in kinds.old losses.old marks.old)) losses.old }
    ensures marks { marks.new ≡ laid (report_marks file.now scale (room_in kinds.old losses.old marks.old)) marks.old }
{
    let scale = Marking::try_from(scale)?;
    report_by(file, scale, kinds, losses, marks)
}
