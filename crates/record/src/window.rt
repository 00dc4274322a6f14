// The receive window (002 9.2.3.1): the highest number accepted, and a mark for each of the newest
// numbers that has arrived. Accepting a number takes the window and gives the new one back.
ghost use Rattle.std.specs.Prelude.{◌≡◌, List, [], ℕ, ◌+◌, ◌*◌, ◌/◌, ◌%◌, ◌^◌, ◌≤◌, ◌<◌};
ghost use Rattle.record.specs.Window.{held_width, Held, fresh_window, emptied, accept_within, accept_of, arrived_at, arrival_of};
ghost use Rattle.record.specs.History.{window_of, judged_of, arrived_of};

// The width where no caller gives one, which is the narrowest.
pub const WIDTH: u8 = 32;

// The mark of the highest number is the lowest bit, and the mark of the number j below it is bit j.
// No mark at all is a fresh window. Marks above the width do not count, and a width outside 32 to 64
// counts as the nearest of these.
#[derive(Clone, Copy)]
pub struct Window {
    pub width: u8,
    pub highest: u16,
    pub marks: u64,
}

// Why a number is not new.
#[derive(Clone, Copy, PartialEq, Eq, Debug)]
pub enum NotNew {
    TooOld,
    Repeated,
}

impl Window {
    // A window of this width in which any number is new.
    pub fn fresh(width: u8) -> Window
        ensures exact { result ≡ fresh_window width }
        ensures meaning { result ≡ window_of width [] }
    {
        Window {
            width,
            highest: 0,
            marks: 0,
        }
    }

    // A fresh window of the same width.
    pub fn emptied(self) -> Window
        ensures { result ≡ emptied self }
    {
        Window::fresh(self.width)
    }

    // What becomes of a number: `exact` for every window, and `meaning` for the window of the numbers h
    // that were accepted since it was fresh, at any width from 32 to 64.
    pub fn accept(self, number: u16) -> Result<(Window, u32), NotNew>
        ensures exact { result ≡ accept_of self number }
        ensures meaning { (width : ℕ) (h : List ℕ) → Held width → self ≡ window_of width h → result ≡ judged_of width h number }
    {
        self.accept_within(HeldWidth::of(self.width), number)
    }

    // The arrival report: how many of the newest numbers have arrived, as many as the width says. `meaning` for the
    // window of the numbers h that were accepted since it was fresh, at any width from 32 to 64.
    pub fn arrival(self) -> u32
        ensures exact { result ≡ arrival_of self }
        ensures meaning { (width : ℕ) (h : List ℕ) → Held width → self ≡ window_of width h → result ≡ arrived_of width h }
    {
        HeldWidth::of(self.width).cut(self.marks).count_ones()
    }

    // The number in a window of this width.
    #[tactic(auto, using(crate::proofs::Answers::masked_bit), unfolding(crate::specs::Window::accept_by))]
    fn accept_within(self, held: HeldWidth, number: u16) -> Result<(Window, u32), NotNew>
        ensures { result ≡ accept_within held.width self number }
    {
        let marks = held.cut(self.marks);
        if marks == 0 {
            return held.arrived(number, 1);
        }
        let n = self.highest as u64;
        let s = number as u64;
        if n < s {
            return held.arrived(number, held.moved(marks, s - n));
        }
        if s + held.width <= n {
            return Err(NotNew::TooOld);
        }
        let place = n - s;
        if (marks >> place) & 1 == 1 {
            return Err(NotNew::Repeated);
        }
        held.arrived(self.highest, marked(marks, place))
    }
}

// How many marks a window keeps: its width, from 32 to 64.
#[derive(Clone, Copy)]
struct HeldWidth {
    width: u64,
    ghost some: { 0 < width },
    ghost few: { width ≤ 64 },
}

impl HeldWidth {
    // The nearest to a width that a window may have.
    #[tactic(auto, unfolding(crate::specs::Window::held_width))]
    fn of(width: u8) -> HeldWidth
        ensures { result.width ≡ held_width width }
    {
        let width = u64::from(width.clamp(32, 64));
        HeldWidth { width }
    }

    // The window with these marks, and how many there are.
    fn arrived(self, highest: u16, marks: u64) -> Result<(Window, u32), NotNew>
        ensures { result ≡ arrived_at self.width highest marks }
    {
        let window = Window {
            width: self.width as u8,
            highest,
            marks,
        };
        Ok((window, marks.count_ones()))
    }

    // The marks of the width, and no others.
    fn cut(self, marks: u64) -> u64
        ensures { result ≡ marks % 2 ^ self.width }
    {
        marks & (u64::MAX >> (64 - self.width))
    }

    // The marks below a number that is `by` above the highest, with its own mark.
    fn moved(self, marks: u64, by: u64) -> u64
        requires { 0 < by }
        ensures { result ≡ marks * 2 ^ by % 2 ^ self.width + 1 }
    {
        if self.width <= by {
            1
        } else {
            self.cut(marks << by) | 1
        }
    }
}

// The marks with one more, which was not there.
fn marked(marks: u64, place: u64) -> u64
    requires { (place < 64) × (marks / 2 ^ place % 2 ≡ 0) }
    ensures { result ≡ marks + 2 ^ place }
{
    marks | (1 << place)
}
