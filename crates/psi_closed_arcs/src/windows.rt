//! Rules on the customers of queues: at most two queues have a window of numbers.

ghost use Rattle.std.specs.Prelude.{◌≡◌, ◌≢◌, ℕ, ◌<◌, ◌^◌, ◌↔◌};
ghost use Rattle.psi_closed_arcs.specs.Windows.{window_at, Allows};
ghost use Rattle.psi_closed_arcs.specs.Joining.{IsChanging, IsShort, IsFull};

/// Numbers from `least` on that are below `end`.
#[derive(Clone, Copy)]
pub(crate) struct Window {
    pub(crate) least: u32,
    pub(crate) end: u32,
}

/// A window for queue `from` and one for queue `to`; the other queues hold what they like.
#[derive(Clone, Copy)]
pub(crate) struct Rule {
    pub(crate) from: u8,
    pub(crate) to: u8,
    pub(crate) source: Window,
    pub(crate) target: Window,
}

// Past each number of 16 bits.
const END: u32 = 65_536;

// All numbers of 16 bits.
const ANY: Window = Window { least: 0, end: END };

impl Rule {
    /// The rule that allows each number at each queue.
    pub(crate) fn any() -> Rule
        ensures { (l v : ℕ) → v < 2 ^ 16 → Allows result l v }
    {
        Rule {
            from: 0,
            to: 0,
            source: ANY,
            target: ANY,
        }
    }

    /// The source holds `k` customers or more, and the target fewer than `room`.
    pub(crate) fn changing(from: u8, k: u16, to: u8, room: u16) -> Rule
        requires { from ≢ to }
        ensures { (l v : ℕ) → v < 2 ^ 16 → Allows result l v ↔ IsChanging from k to room l v }
    {
        let source = Window {
            least: u32::from(k),
            end: END,
        };
        let target = Window {
            least: 0,
            end: u32::from(room),
        };
        Rule {
            from,
            to,
            source,
            target,
        }
    }

    /// The source holds fewer than `k` customers.
    pub(crate) fn short(from: u8, k: u16) -> Rule
        ensures { (l v : ℕ) → v < 2 ^ 16 → Allows result l v ↔ IsShort from k l v }
    {
        let source = Window {
            least: 0,
            end: u32::from(k),
        };
        Rule {
            from,
            to: from,
            source,
            target: ANY,
        }
    }

    /// The target holds `room` customers or more.
    pub(crate) fn full(to: u8, room: u16) -> Rule
        ensures { (l v : ℕ) → v < 2 ^ 16 → Allows result l v ↔ IsFull to room l v }
    {
        let source = Window {
            least: u32::from(room),
            end: END,
        };
        Rule {
            from: to,
            to,
            source,
            target: ANY,
        }
    }

    /// The window of a queue.
    #[inline]
    pub(crate) fn window(&self, level: u8) -> Window
        ensures { result ≡ window_at self.now level }
    {
        if level == self.from {
            self.source
        } else if level == self.to {
            self.target
        } else {
            ANY
        }
    }
}
