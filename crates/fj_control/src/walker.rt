// A walk of a list of items with its repeats written out (ISO/IEC 1539-1:2004, 10.3).
ghost use Rattle.std.specs.Prelude.{◌≡◌, ◌≤◌, ◌<◌, ◌+◌, ◌*◌, ◌++◌, ℕ, [], ◌∷◌, false, length, vec_capacity, IsTrue, IfSome, IfNone, IfOk, IsOk};
ghost use Rattle.fj_value.specs.declared.edit.Edit.{Edit};
ghost use Rattle.std.specs.List.{list_any};
ghost use Rattle.fj_format.specs.Unfolding.{edit, height, is_group, pass, repeated, work};
ghost use Rattle.fj_control.specs.Walker.{step_of, repeated_step, rest_of, work_of, IsSound, KeepsRoom, Moved, GaveOrMoved, GaveOrEnded, CameTo};

use crate::again::has_group;
use crate::step::Step;
use fj_format::{FormatItem, ModeStep};
use fj_value::Edit;
use std::alloc::{AllocError, Global};

/// A list of items that is being walked.
#[derive(Clone, Copy)]
pub struct Frame<'a> {
    pub items: &'a [FormatItem],
    pub at: usize,
    /// How often it is walked again from its start.
    pub left: u32,
}

#[derive(Clone, Copy)]
pub enum Piece<'a> {
    Edit(Edit),
    Slash,
    Colon,
    Str(&'a [u8]),
    Tab(u32),
    Left(u32),
    Right(u32),
    Mode(ModeStep),
}

/// What is given several times.
#[derive(Clone, Copy)]
pub enum Repeat {
    Edit(Edit),
    Slash,
}

/// A walk of a list of items with its repeats written out.
#[derive(Drop)]
pub struct Walker<'a> {
    /// How often `repeat` is still to be given.
    pub times: u32,
    pub repeat: Repeat,
    pub top: Frame<'a>,
    /// The lists that hold it, the outermost first. It has room for all that hold a list of the format.
    pub outer: Vec<Frame<'a>>,
}

/// How many lists may hold a list of these: none, or as many as there ever are.
#[tactic(auto, using(crate::proofs::Reversion::flat))]
fn most_outer(items: &[FormatItem]) -> usize
    requires { height items.now ≤ 31 }
    ensures room { height items.now ≤ result }
    ensures flat { list_any is_group items.now ≡ false → result ≡ 0 }
{
    if has_group(items) { 31 } else { 0 }
}

fn piece_of<'a>(repeat: Repeat) -> Piece<'a>
    ensures { step_of result ≡ repeated_step repeat }
{
    match repeat {
        Repeat::Edit(edit) => Piece::Edit(edit),
        Repeat::Slash => Piece::Slash,
    }
}

impl<'a> Walker<'a> {
    /// A walk of a list. Without groups it takes no memory.
    pub fn new(alloc: Global, items: &'a [FormatItem]) -> Result<Walker<'a>, AllocError>
        requires { height items.now ≤ 31 }
        ensures flat { list_any is_group items.now ≡ false → IsOk result }
        ensures rest { IfOk result (λ walker. rest_of walker ≡ pass items.entry.now) }
        ensures sound { IfOk result IsSound }
        ensures room { IfOk result (λ walker. height items.entry.now ≤ vec_capacity walker.outer) }
    {
        let mut outer = Vec::new(alloc);
        outer.reserve(most_outer(items))?;
        let top = Frame {
            items,
            at: 0,
            left: 0,
        };
        Ok(Walker {
            times: 0,
            repeat: Repeat::Slash,
            top,
            outer,
        })
    }

    /// Begins to walk another list.
    pub fn restart(&mut self, items: &'a [FormatItem])
        requires low { height items.now ≤ vec_capacity self.old.outer }
        ensures rest { rest_of self.new ≡ pass items.entry.now }
        ensures sound { IsSound self.new }
        ensures room { KeepsRoom self.old self.new }
    {
        self.times = 0;
        self.outer.clear();
        self.top = Frame {
            items,
            at: 0,
            left: 0,
        };
    }

    /// Begins to walk an inner list.
    fn enter(&mut self, items: &'a [FormatItem], left: u32)
        requires { length self.old.outer.items < vec_capacity self.old.outer }
        ensures times { self.new.times ≡ self.old.times }
        ensures repeat { self.new.repeat ≡ self.old.repeat }
        ensures top { self.new.top ≡ record { items = items.entry; at = 0; left = left } }
        ensures outer { self.new.outer.items ≡ self.old.outer.items ++ self.old.top ∷ [] }
        ensures room { KeepsRoom self.old self.new }
    {
        self.outer.push_reserved(self.top);
        self.top = Frame { items, at: 0, left };
    }

    /// Begins to walk an inner list so many times.
    fn group(&mut self, r: u32, items: &'a [FormatItem])
        requires sound { IsSound self.old }
        requires times { self.old.times ≡ 0 }
        requires room { (length self.old.outer.items + 1) + height items.now ≤ vec_capacity self.old.outer }
        ensures rest { rest_of self.new ≡ repeated r (pass items.entry.now) ++ rest_of self.old }
        ensures work { work_of self.new ≤ r * (work items.entry.now + 1) + work_of self.old }
        ensures sound { IsSound self.new }
        ensures room { KeepsRoom self.old self.new }
    {
        if r > 0 {
            self.enter(items, r - 1);
        }
    }

    /// Goes on behind the end of a list, if that isn't the end of all.
    fn up(&mut self) -> bool
        requires sound { IsSound self.old }
        requires times { self.old.times ≡ 0 }
        requires at_end { length self.old.top.items.now ≤ self.old.top.at }
        ensures moved { IsTrue result → Moved self.old self.new }
        ensures ended { result ≡ false → (rest_of self.old ≡ []) × (self.new ≡ self.old) }
    {
        if self.top.left > 0 {
            self.top.left -= 1;
            self.top.at = 0;
            true
        } else if self.outer.is_empty() {
            false
        } else {
            let Some(frame) = self.outer.pop() else {
                unreachable!();
            };
            self.top = frame;
            true
        }
    }

    /// Takes one item.
    fn item(&mut self) -> Option<Piece<'a>>
        requires sound { IsSound self.old }
        requires times { self.old.times ≡ 0 }
        requires at { self.old.top.at < length self.old.top.items.now }
        ensures gave { GaveOrMoved self.old result self.new }
        ensures sound { IsSound self.new }
        ensures room { KeepsRoom self.old self.new }
    {
        let items = self.top.items;
        let at = self.top.at;
        self.top.at = at + 1;
        match &items[at] {
            FormatItem::Field { r, edit } => {
                self.times = *r;
                self.repeat = Repeat::Edit(*edit);
                None
            }
            FormatItem::Group { r, items } => {
                self.group(*r, items.as_slice());
                None
            }
            FormatItem::Unlimited { items } => {
                self.group(1, items.as_slice());
                None
            }
            FormatItem::Str(text) => Some(Piece::Str(text.bytes())),
            FormatItem::Tab(n) => Some(Piece::Tab(*n)),
            FormatItem::Left(n) => Some(Piece::Left(*n)),
            FormatItem::Right(n) => Some(Piece::Right(*n)),
            FormatItem::Skip(n) => Some(Piece::Right(*n)),
            FormatItem::Slash(n) => {
                self.times = *n;
                self.repeat = Repeat::Slash;
                None
            }
            FormatItem::Colon => Some(Piece::Colon),
            FormatItem::Mode(mode) => Some(Piece::Mode(*mode)),
        }
    }
}

impl<'a> Walker<'a> {
    /// The next elementary step, or none at the end.
    pub fn piece(&mut self) -> Option<Piece<'a>>
        requires { IsSound self.old }
        ensures gave { GaveOrEnded self.old result self.new }
        ensures sound { IsSound self.new }
        ensures room { KeepsRoom self.old self.new }
    {
        loop {
            if self.times > 0 {
                self.times -= 1;
                return Some(piece_of(self.repeat));
            }
            if self.top.at < self.top.items.len() {
                if let Some(piece) = self.item() {
                    return Some(piece);
                }
            } else if !self.up() {
                return None;
            }
        }
    }
}

impl<'a> Walker<'a> {
    /// Begins to repeat the next item, where it is a data descriptor.
    fn begin_repeat(&mut self)
        requires sound { IsSound self.old }
        requires times { self.old.times ≡ 0 }
        ensures rest { rest_of self.new ≡ rest_of self.old }
        ensures sound { IsSound self.new }
        ensures room { KeepsRoom self.old self.new }
    {
        let items = self.top.items;
        let at = self.top.at;
        if at >= items.len() {
            return;
        }
        if let FormatItem::Field { r, edit } = &items[at] {
            self.top.at = at + 1;
            self.times = *r;
            self.repeat = Repeat::Edit(*edit);
        }
    }

    /// Takes the data descriptor that is next, up to so many times.
    pub fn run(&mut self, most: usize) -> Option<(Edit, usize)>
        requires { IsSound self.old }
        ensures some { IfSome result (λ (run : Edit × ℕ). rest_of self.old ≡ repeated run.1 (edit run.0 ∷ []) ++ rest_of self.new) }
        ensures few { IfSome result (λ (run : Edit × ℕ). (1 ≤ run.1) × (run.1 ≤ most)) }
        ensures none { IfNone result (rest_of self.new ≡ rest_of self.old) }
        ensures sound { IsSound self.new }
        ensures room { KeepsRoom self.old self.new }
    {
        if self.times == 0 {
            self.begin_repeat();
        }
        self.repeats(most)
    }

    /// Takes the data descriptor that is being repeated, up to so many times.
    fn repeats(&mut self, most: usize) -> Option<(Edit, usize)>
        requires { IsSound self.old }
        ensures some { IfSome result (λ (run : Edit × ℕ). rest_of self.old ≡ repeated run.1 (edit run.0 ∷ []) ++ rest_of self.new) }
        ensures few { IfSome result (λ (run : Edit × ℕ). (1 ≤ run.1) × (run.1 ≤ most)) }
        ensures none { IfNone result (self.new ≡ self.old) }
        ensures sound { IsSound self.new }
        ensures room { KeepsRoom self.old self.new }
    {
        let count = most.min(self.times as usize);
        match self.repeat {
            Repeat::Edit(edit) if count > 0 => {
                self.times -= count as u32;
                Some((edit, count))
            }
            _ => None,
        }
    }
}

/// What a walk came to: a step, the end of control before the end of the list, or the end of the list.
#[derive(Clone, Copy)]
pub enum Walked<'a> {
    Gave(Step<'a>),
    Stopped,
    Ended,
}

impl<'a> Walker<'a> {
    /// Goes on to the next step, where an item is left or not.
    pub fn walk(&mut self, left: bool) -> Walked<'a>
        requires { IsSound self.old }
        ensures came { CameTo left (rest_of self.old) result (rest_of self.new) }
        ensures sound { IsSound self.new }
        ensures room { KeepsRoom self.old self.new }
    {
        if left && let Some((edit, _)) = self.repeats(1) {
            return Walked::Gave(Step::Edit(edit));
        }
        loop {
            let Some(piece) = self.piece() else {
                return Walked::Ended;
            };
            match piece {
                Piece::Edit(edit) => {
                    return if left {
                        Walked::Gave(Step::Edit(edit))
                    } else {
                        Walked::Stopped
                    };
                }
                Piece::Colon => {
                    if !left {
                        return Walked::Stopped;
                    }
                }
                Piece::Slash => return Walked::Gave(Step::Slash),
                Piece::Str(text) => return Walked::Gave(Step::Str(text)),
                Piece::Tab(n) => return Walked::Gave(Step::Tab(n)),
                Piece::Left(n) => return Walked::Gave(Step::Left(n)),
                Piece::Right(n) => return Walked::Gave(Step::Right(n)),
                Piece::Mode(mode) => return Walked::Gave(Step::Mode(mode)),
            }
        }
    }
}
