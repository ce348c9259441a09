// The loss of a look's row.
ghost use Rattle.std.specs.Prelude.{◌≡◌, ◌<◌, IfSome, IsFalse, IsSome, IsTrue, length};
ghost use Rattle.ssd_histories.specs.OpenLooks.{look_at};
ghost use Rattle.ssd_histories.specs.Ranges.{is_in_range};
ghost use Rattle.chan_tables.specs.Condemning.{IsCondemnAnswer, kind_of_condemn, rows_after_condemn, NamesInRange};
ghost use Rattle.chan_tables.specs.TablesState.{tables_after, ends_uncorrectable};

use super::Tables;
use super::moving::is_page_of;
use crate::CondemnAnswer;
use map_rows::Rows;
use ssd_geo::{Entry, Kind, Look, Row, Tag};

impl Tables {
    /// Makes the row of a look lost, where it is as the look found it.
    pub fn condemned(&mut self, tag: Tag, at: u32) -> CondemnAnswer
        requires is_open { IsSome (look_at self.old.looks at) }
        requires not_uncorrectable { IsFalse (ends_uncorrectable self.old.past at) }
        ensures answer { IfSome (look_at self.old.looks at) (λ pin. IsCondemnAnswer self.old.rows pin.1 result) }
        ensures rows { IfSome (look_at self.old.looks at) (λ pin.
            self.new.rows ≡ rows_after_condemn self.old.rows pin.1 result) }
        ensures in_rows { IfSome (look_at self.old.looks at) (λ pin. pin.1.row < self.old.shape.rows) }
        ensures in_range { IsTrue (is_in_range self.old.shape (kind_of_condemn at result)) }
        ensures new { self.new ≡ tables_after self.old tag (kind_of_condemn at result) }
    {
        let (_, look) = self.looks.find(at).unwrap();
        let answer = condemn_answer(&self.rows, &look);
        lose_page(&mut self.rows, &look, answer);
        self.history.push(Entry {
            tag,
            kind: kind_of(at, answer),
        });
        answer
    }
}

// What a condemnation of a look's row is to answer.
fn condemn_answer(rows: &Rows, look: &Look) -> CondemnAnswer
    requires { look.now.row < length rows.now.rows }
    ensures value { IsCondemnAnswer rows.now.rows look.now result }
    ensures in_range { NamesInRange rows.now.superblocks rows.now.slots result }
{
    let row = rows.row(look.row);
    if is_page_of(&row, look) {
        CondemnAnswer::Condemned
    } else {
        CondemnAnswer::Changed { row }
    }
}

// Makes a look's row lost, where it is condemned.
fn lose_page(rows: &mut Rows, look: &Look, answer: CondemnAnswer)
    requires { look.now.row < length rows.old.rows }
    ensures { rows.new ≡ record rows.old { rows = rows_after_condemn rows.old.rows look.now answer } }
{
    if let CondemnAnswer::Condemned = answer {
        let _ = rows.set(look.row, Row::Lost);
    }
}

// The entry of a condemnation.
fn kind_of(at: u32, answer: CondemnAnswer) -> Kind
    ensures { result ≡ kind_of_condemn at answer }
{
    match answer {
        CondemnAnswer::Changed { row } => Kind::Changed { at, found: row },
        CondemnAnswer::Condemned => Kind::Condemn { at },
    }
}
