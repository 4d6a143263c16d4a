// Where rows stand, and the calls of labels, of two labels and of a frame.
ghost use Rattle.std.specs.Prelude.{◌≡◌, ℕ, ◌+◌, ◌≤◌, ◌↔◌, not, ◌&&◌, ◌==◌, Decides, IsTrue, EachIndex, slice_index};
ghost use Rattle.rules.specs.Limits.{Within, max_forms};
ghost use Rattle.rules.specs.Tables.{in_row};
ghost use Rattle.books.specs.Frames.{within, frame_size, frame_live, LabelOf, PairOf, FrameFrom, FrameStruck, StrikeJudged, table_at, row_at, all_rows};

use crate::forms::{up_to, with_form, without};
use crate::frame::Frame;
use crate::label::Label;
use crate::label_pair::LabelPair;
use crate::wording::Wording;
use rules::limits::{MAX_FORMS, MAX_LABELS};
use rules::{Refusal, has_form};

// The rows of all tables: sixteen for each two of sixteen labels. Without a heap their array has a fixed size; it is flat, so
// that the place of a row is one number.
pub(crate) const ROWS: usize = 1920;

impl Label {
    // A label with all its forms live.
    fn of(size: u8) -> Label
        requires { size ≤ max_forms }
        ensures size { result.size ≡ size }
        ensures live { (a : ℕ) → in_row result.live a ≡ within size a }
    {
        Label {
            size,
            live: up_to(size),
        }
    }
}

impl LabelPair {
    // Where the sixteen rows of the two labels begin. Tables stand in the order of their second label, then of their first.
    pub(crate) fn table(self) -> usize
        ensures place { result ≡ table_at self.first self.second }
        ensures room { result + 16 ≤ all_rows }
    {
        let first = usize::from(self.first);
        let second = usize::from(self.second);
        ((second - 1) * (second - 2) / 2 + (first - 1)) * 16
    }

    // Where the row of a form of the first label stands. Each caller has the form at hand as one that a label can have; a type
    // for that would be made and taken apart at each call.
    pub(crate) fn row(self, form: u8) -> usize
        requires { Within max_forms form }
        ensures place { result ≡ row_at self.first self.second form }
        ensures room { result + 1 ≤ all_rows }
    {
        self.table() + (usize::from(form) - 1)
    }
}

// Whether each is a size that a label can have.
fn are_sizes(sizes: &[u8]) -> bool
    ensures { IsTrue result ↔ EachIndex sizes.now (λ k. Within max_forms (slice_index sizes.now k)) }
{
    sizes.iter().all(|size| (1..=MAX_FORMS).contains(size))
}

// Labels of these sizes, with all their forms live.
impl TryFrom<&[u8]> for Frame {
    type Error = Refusal;

    ghost try_from_gives = { λ sizes result. FrameFrom sizes.now result };

    fn try_from(sizes: &[u8]) -> Result<Frame, Refusal> {
        if sizes.len() > usize::from(MAX_LABELS) || !are_sizes(sizes) {
            return Err(Refusal::OutsideLimits);
        }
        let mut labels = [Label::of(0); 16];
        // With `iter_mut` under `zip`, or `array::from_fn`, the check does not follow what is written.
        for (k, size) in sizes.iter().enumerate() {
            labels[k] = Label::of(*size);
        }
        Ok(Frame {
            count: sizes.len() as u8,
            labels,
        })
    }
}

impl Frame {
    pub(crate) fn none() -> Frame
        ensures { result.count ≡ 0 }
    {
        Frame {
            count: 0,
            labels: [Label::of(0); 16],
        }
    }

    fn has_label(&self, i: u8) -> bool
        ensures { Decides result (Within self.now.count i) }
    {
        (1..=self.count).contains(&i)
    }

    // The label, if the panel has it.
    fn label(&self, i: u8) -> Option<Label>
        ensures { LabelOf self.now i result }
    {
        if !self.has_label(i) {
            return None;
        }
        Some(self.labels[usize::from(i) - 1])
    }

    // The two labels, if a table may be given for them.
    pub(crate) fn pair(&self, i: u8, j: u8) -> Option<LabelPair>
        ensures { PairOf self.now i j result }
    {
        if 1 <= i && i < j && j <= self.count {
            Some(LabelPair {
                first: i,
                second: j,
            })
        } else {
            None
        }
    }

    pub(crate) fn size(&self, i: u8) -> u8
        ensures { result ≡ frame_size self.now i }
    {
        self.label(i).map_or(0, |label| label.size)
    }

    // The live forms of a label, as the bits of a row.
    pub(crate) fn forms(&self, i: u8) -> u16
        ensures { (a : ℕ) → in_row result a ≡ frame_live self.now i a }
    {
        self.label(i).map_or(0, |label| label.live)
    }

    pub(crate) fn live(&self, w: Wording) -> bool
        ensures { result ≡ frame_live self.now w.label w.form }
    {
        has_form(self.forms(w.label), w.form)
    }

    // Why a strike would be refused, if the panel lacks the form.
    pub(crate) fn can_strike(&self, w: Wording) -> Result<(), Refusal>
        ensures { StrikeJudged self.now w.label w.form result }
    {
        if !self.has_label(w.label) {
            return Err(Refusal::NoLabel);
        }
        // The size alone is read, since copying a label that a strike has just written to is slower.
        let size = self.labels[usize::from(w.label) - 1].size;
        if !(1..=size).contains(&w.form) {
            return Err(Refusal::NoForm);
        }
        Ok(())
    }

    // Makes a form not live. It is written where it stands: a copy of the frame would cost more than the strike.
    pub(crate) fn strike(&mut self, w: Wording)
        requires label { Within self.old.count w.label }
        requires form { Within (frame_size self.old w.label) w.form }
        ensures { FrameStruck self.old w.label w.form self.new }
    {
        let k = usize::from(w.label) - 1;
        self.labels[k].live = without(self.labels[k].live, with_form(0, w.form));
    }
}
