// A format that is being read, one character outside its strings at a time (ISO/IEC 1539-1:2004, 10.2).
ghost use Rattle.std.specs.Prelude.{◌≡◌, ◌+◌, ◌*◌, [], ◌∷◌, ◌++◌};
ghost use Rattle.fj_format.specs.Reading.{at, alone, by_letter, body, start, nested, opens, stars, starred, closed_as, closed, closing, between, ended, grown, behind_general, behind_width, behind_decimals, behind, blank_letter, tab_letter, instead_of_width, instead, sign_letter, decimal_letter, next, Answers, Takes};
ghost use Rattle.fj_format.specs.declared.item.FormatItem.TheVariants.{Field};
ghost use Rattle.fj_format.specs.declared.place.FormatPlace.TheVariants.{Begin, Behind, First, More, SignLetter, DecimalLetter};
ghost use Rattle.fj_format.specs.declared.place.Purpose.TheVariants.{Width};

use crate::data::have_data;
use crate::item::{FormatItem, FormatItems, ModeStep};
use crate::level::{Level, Levels};
use crate::place::{FieldKind, FormatPlace, Purpose, Radix, Tabbing};
use crate::symbol::{Letter, Symbol};
use fj_value::{Edit, Items};
use std::alloc::{AllocError, Global};
use std::mem;

/// What was read: the parentheses that are open round the innermost ones, and the items in these. A
/// call that takes a symbol answers whether some format goes on so.
#[derive(Drop)]
pub struct Reader {
    pub levels: Levels,
    pub items: FormatItems,
    pub place: FormatPlace,
}

/// A number with one more digit.
fn with_digit(n: u32, d: u8) -> u64
    ensures { result ≡ 10 * n + d }
{
    10 * u64::from(n) + u64::from(d)
}

impl Reader {
    pub fn new(alloc: Global) -> Reader
        ensures levels { result.levels ≡ [] }
        ensures items { result.items ≡ [] }
        ensures place { result.place ≡ Begin }
    {
        Reader {
            levels: Levels::new(alloc),
            items: Items::new(alloc),
            place: FormatPlace::Begin,
        }
    }

    /// Puts an item behind the others; `free` says that it is a slash or a colon.
    pub fn put(&mut self, item: FormatItem, free: bool) -> Result<bool, AllocError>
        ensures { Takes result (at self.old.levels (self.old.items ++ item ∷ []) (Behind free)) self.new }
    {
        self.items.push(item)?;
        self.place = FormatPlace::Behind(free);
        Ok(true)
    }

    fn go(&mut self, place: FormatPlace) -> bool
        ensures { Answers (at self.old.levels self.old.items place) result self.new }
    {
        self.place = place;
        true
    }

    /// Goes on where no count may stand.
    fn go_alone(&mut self, count: Option<u32>, place: FormatPlace) -> bool
        ensures { Answers (alone count (at self.old.levels self.old.items place)) result self.new }
    {
        match count {
            None => self.go(place),
            Some(_) => false,
        }
    }

    /// Goes on to a width.
    fn go_width(&mut self, count: Option<u32>, kind: FieldKind) -> bool
        ensures { Answers (at self.old.levels self.old.items (First (Width count kind))) result self.new }
    {
        self.go(FormatPlace::First(Purpose::Width { count, kind }))
    }

    /// Goes on in a number that has this value so far.
    fn grow(&mut self, purpose: Purpose, value: u64) -> bool
        ensures { Answers (grown purpose value self.old.levels self.old.items) result self.new }
    {
        if value <= u64::from(purpose.greatest()) {
            self.go(FormatPlace::More(purpose, value as u32))
        } else {
            false
        }
    }

    /// Goes on in inner parentheses.
    fn nest(&mut self, r: Option<u32>) -> Result<bool, AllocError>
        ensures { Takes result (nested self.old.levels self.old.items r) self.new }
    {
        let inner = Items::new(self.items.allocator());
        let items = mem::replace(&mut self.items, inner);
        self.levels.push(Level { r, items })?;
        self.place = FormatPlace::Wanted;
        Ok(true)
    }

    fn open(&mut self, r: u32) -> Result<bool, AllocError>
        ensures { Takes result (opens self.old.levels self.old.items r) self.new }
    {
        if self.levels.len() < 31 {
            self.nest(Some(r))
        } else {
            Ok(false)
        }
    }

    /// Takes the star of the unlimited item, which stands in no inner parentheses.
    fn take_star(&mut self) -> bool
        ensures { Answers (stars self.old.levels self.old.items) result self.new }
    {
        if self.levels.len() == 0 {
            self.go(FormatPlace::Starred)
        } else {
            false
        }
    }

    /// Takes what stands behind the star.
    fn take_starred(&mut self, symbol: Symbol) -> Result<bool, AllocError>
        ensures { Takes result (starred self.old.levels self.old.items symbol) self.new }
    {
        match symbol {
            Symbol::Open => self.nest(None),
            _ => Ok(false),
        }
    }

    /// Puts the items of the innermost parentheses behind those round them.
    fn close_as(&mut self, r: Option<u32>, inner: FormatItems) -> Result<bool, AllocError>
        ensures { Takes result (closed_as r self.old.levels self.old.items inner) self.new }
    {
        match r {
            Some(r) => self.put(FormatItem::Group { r, items: inner }, false),
            None => {
                if have_data(inner.as_slice()) {
                    self.items.push(FormatItem::Unlimited { items: inner })?;
                    self.place = FormatPlace::Closing;
                    Ok(true)
                } else {
                    Ok(false)
                }
            }
        }
    }

    fn close(&mut self) -> Result<bool, AllocError>
        ensures { Takes result (closed self.old.levels self.old.items) self.new }
    {
        match self.levels.pop() {
            None => {
                self.place = FormatPlace::Done;
                Ok(true)
            }
            Some(level) => {
                let Level { r, items } = level;
                let inner = mem::replace(&mut self.items, items);
                self.close_as(r, inner)
            }
        }
    }

    /// Takes what stands behind the unlimited item.
    fn take_closing(&mut self, symbol: Symbol) -> bool
        ensures { Answers (closing self.old.levels self.old.items symbol) result self.new }
    {
        match symbol {
            Symbol::Close => self.go(FormatPlace::Done),
            _ => false,
        }
    }

    fn take_letter(&mut self, count: Option<u32>, letter: Letter) -> Result<bool, AllocError>
        ensures { Takes result (by_letter self.old.levels self.old.items count letter) self.new }
    {
        match letter {
            Letter::A => Ok(self.go_width(count, FieldKind::Characters)),
            Letter::B => Ok(self.go_width(count, FieldKind::Integer(Radix::Two))),
            Letter::D => Ok(self.go_alone(count, FormatPlace::DecimalLetter)),
            Letter::G => Ok(self.go_width(count, FieldKind::Generalized)),
            Letter::I => Ok(self.go_width(count, FieldKind::Integer(Radix::Ten))),
            Letter::L => Ok(self.go_width(count, FieldKind::Logical)),
            Letter::O => Ok(self.go_width(count, FieldKind::Integer(Radix::Eight))),
            Letter::S => Ok(self.go_alone(count, FormatPlace::SignLetter)),
            Letter::T => Ok(self.go_alone(count, FormatPlace::First(Purpose::Tabs(Tabbing::To)))),
            Letter::X => self.put(FormatItem::Skip(count.unwrap_or(1)), false),
            Letter::Z => Ok(self.go_width(count, FieldKind::Integer(Radix::Sixteen))),
            _ => Ok(false),
        }
    }

    /// Takes what begins an item behind its count.
    fn take_body(&mut self, count: Option<u32>, symbol: Symbol) -> Result<bool, AllocError>
        ensures { Takes result (body self.old.levels self.old.items count symbol) self.new }
    {
        match symbol {
            Symbol::Letter(letter) => self.take_letter(count, letter),
            Symbol::Slash => self.put(FormatItem::Slash(count.unwrap_or(1)), true),
            Symbol::Open => self.open(count.unwrap_or(1)),
            Symbol::Colon => match count {
                None => self.put(FormatItem::Colon, true),
                Some(_) => Ok(false),
            },
            _ => Ok(false),
        }
    }

    /// Takes what begins an item.
    fn take_start(&mut self, symbol: Symbol) -> Result<bool, AllocError>
        ensures { Takes result (start self.old.levels self.old.items symbol) self.new }
    {
        match symbol {
            Symbol::Digit(d) => Ok(self.grow(Purpose::Count, u64::from(d))),
            Symbol::Star => Ok(self.take_star()),
            _ => self.take_body(None, symbol),
        }
    }

    /// Takes what stands behind an item.
    fn take_between(&mut self, free: bool, symbol: Symbol) -> Result<bool, AllocError>
        ensures { Takes result (between free self.old.levels self.old.items symbol) self.new }
    {
        match symbol {
            Symbol::Comma => Ok(self.go(FormatPlace::Wanted)),
            Symbol::Close => self.close(),
            Symbol::Slash | Symbol::Colon => self.take_body(None, symbol),
            _ if free => self.take_start(symbol),
            _ => Ok(false),
        }
    }

    /// Puts an item behind the others, and takes what stands behind it.
    fn end(&mut self, item: FormatItem, symbol: Symbol) -> Result<bool, AllocError>
        ensures { Takes result (ended self.old.levels self.old.items item symbol) self.new }
    {
        self.put(item, false)?;
        self.take_between(false, symbol)
    }

    /// The same of a field.
    fn end_field(&mut self, r: u32, edit: Edit, symbol: Symbol) -> Result<bool, AllocError>
        ensures { Takes result (ended self.old.levels self.old.items (Field r edit) symbol) self.new }
    {
        self.end(FormatItem::Field { r, edit }, symbol)
    }

    /// Takes what stands behind the width of G: `.d`, or behind 0 nothing.
    fn take_behind_general(&mut self, r: u32, w: u32, symbol: Symbol) -> Result<bool, AllocError>
        ensures { Takes result (behind_general r w self.old.levels self.old.items symbol) self.new }
    {
        if w == 0 {
            return self.end_field(r, Edit::General { w, d: 0 }, symbol);
        }
        match symbol {
            Symbol::Point => Ok(self.go(FormatPlace::First(Purpose::Decimals { r, w }))),
            _ => Ok(false),
        }
    }

    /// Takes what stands behind a width.
    fn take_behind_width(
        &mut self,
        count: Option<u32>,
        kind: FieldKind,
        w: u32,
        symbol: Symbol,
    ) -> Result<bool, AllocError>
        ensures { Takes result (behind_width count kind w self.old.levels self.old.items symbol) self.new }
    {
        let r = count.unwrap_or(1);
        match (kind, symbol) {
            (FieldKind::Integer(radix), Symbol::Point) => {
                Ok(self.go(FormatPlace::First(Purpose::LeastDigits { r, radix, w })))
            }
            (FieldKind::Integer(radix), _) => { self.end_field(r, radix.edit(w, None), symbol) }
            (FieldKind::Logical, _) => { self.end_field(r, Edit::Log { w }, symbol) }
            (FieldKind::Characters, _) => { self.end_field(r, Edit::Chars { w: Some(w) }, symbol) }
            (FieldKind::Generalized, _) => self.take_behind_general(r, w, symbol),
        }
    }

    /// Takes what stands behind `Gw.d`.
    fn take_behind_decimals(
        &mut self,
        r: u32,
        w: u32,
        d: u32,
        symbol: Symbol,
    ) -> Result<bool, AllocError>
        ensures { Takes result (behind_decimals r w d self.old.levels self.old.items symbol) self.new }
    {
        match symbol {
            Symbol::Letter(Letter::E) => Ok(self.go(FormatPlace::First(Purpose::ExponentDigits {
                r,
                w,
                d,
            }))),
            _ => self.end_field(r, Edit::General { w, d }, symbol),
        }
    }

    /// Takes what stands behind a number.
    fn take_behind(&mut self, purpose: Purpose, n: u32, symbol: Symbol) -> Result<bool, AllocError>
        ensures { Takes result (behind purpose n self.old.levels self.old.items symbol) self.new }
    {
        match purpose {
            Purpose::Count => self.take_body(Some(n), symbol),
            Purpose::Width { count, kind } => self.take_behind_width(count, kind, n, symbol),
            Purpose::LeastDigits { r, radix, w } => {
                self.end_field(r, radix.edit(w, Some(n)), symbol)
            }
            Purpose::Decimals { r, w } => self.take_behind_decimals(r, w, n, symbol),
            Purpose::ExponentDigits { r, w, d } => {
                self.end_field(r, Edit::General { w, d }, symbol)
            }
            Purpose::Tabs(tabbing) => self.end(tabbing.item(n), symbol),
        }
    }

    /// Takes the second letter of `BN` or `BZ`.
    fn take_blank_letter(&mut self, symbol: Symbol) -> Result<bool, AllocError>
        ensures { Takes result (blank_letter self.old.levels self.old.items symbol) self.new }
    {
        match symbol {
            Symbol::Letter(Letter::N) => self.put(FormatItem::Mode(ModeStep::BlankNull), false),
            Symbol::Letter(Letter::Z) => self.put(FormatItem::Mode(ModeStep::BlankZero), false),
            _ => Ok(false),
        }
    }

    /// Takes the second letter of `TL` or `TR`.
    fn take_tab_letter(&mut self, symbol: Symbol) -> bool
        ensures { Answers (tab_letter self.old.levels self.old.items symbol) result self.new }
    {
        match symbol {
            Symbol::Letter(Letter::L) => self.go(FormatPlace::First(Purpose::Tabs(Tabbing::Left))),
            Symbol::Letter(Letter::R) => self.go(FormatPlace::First(Purpose::Tabs(Tabbing::Right))),
            _ => false,
        }
    }

    /// Takes what may stand in place of a width.
    fn take_instead_of_width(
        &mut self,
        count: Option<u32>,
        kind: FieldKind,
        symbol: Symbol,
    ) -> Result<bool, AllocError>
        ensures { Takes result (instead_of_width kind count self.old.levels self.old.items symbol) self.new }
    {
        match (kind, count) {
            (FieldKind::Characters, _) => {
                let r = count.unwrap_or(1);
                self.end_field(r, Edit::Chars { w: None }, symbol)
            }
            (FieldKind::Integer(Radix::Two), None) => self.take_blank_letter(symbol),
            _ => Ok(false),
        }
    }

    /// Takes what may stand in place of a number.
    fn take_instead(&mut self, purpose: Purpose, symbol: Symbol) -> Result<bool, AllocError>
        ensures { Takes result (instead purpose self.old.levels self.old.items symbol) self.new }
    {
        match purpose {
            Purpose::Width { count, kind } => self.take_instead_of_width(count, kind, symbol),
            Purpose::Tabs(Tabbing::To) => Ok(self.take_tab_letter(symbol)),
            _ => Ok(false),
        }
    }

    /// Takes what stands behind the letter `S`.
    fn take_sign_letter(&mut self, symbol: Symbol) -> Result<bool, AllocError>
        ensures { Takes result (sign_letter self.old.levels self.old.items symbol) self.new }
    {
        match symbol {
            Symbol::Letter(Letter::P) => self.put(FormatItem::Mode(ModeStep::Plus), false),
            Symbol::Letter(Letter::S) => self.put(FormatItem::Mode(ModeStep::Suppress), false),
            _ => self.end(FormatItem::Mode(ModeStep::Usual), symbol),
        }
    }

    /// Takes the second letter of `DC` or `DP`.
    fn take_decimal_letter(&mut self, symbol: Symbol) -> Result<bool, AllocError>
        ensures { Takes result (decimal_letter self.old.levels self.old.items symbol) self.new }
    {
        match symbol {
            Symbol::Letter(Letter::C) => self.put(FormatItem::Mode(ModeStep::Comma), false),
            Symbol::Letter(Letter::P) => self.put(FormatItem::Mode(ModeStep::Point), false),
            _ => Ok(false),
        }
    }

    /// Takes one more character that is no blank and in no string.
    #[tactic(auto, unfolding(crate::specs::Reading::next))]
    pub fn take(&mut self, symbol: Symbol) -> Result<bool, AllocError>
        ensures { Takes result (next self.old symbol) self.new }
    {
        match (self.place, symbol) {
            (FormatPlace::Begin, Symbol::Open) => Ok(self.go(FormatPlace::Opened)),
            (FormatPlace::Begin | FormatPlace::Done, _) => Ok(false),
            (FormatPlace::Opened, Symbol::Close) => Ok(self.go(FormatPlace::Done)),
            (FormatPlace::Opened | FormatPlace::Wanted, _) => self.take_start(symbol),
            (FormatPlace::Behind(free), _) => self.take_between(free, symbol),
            (FormatPlace::First(purpose), Symbol::Digit(d)) => Ok(self.grow(purpose, u64::from(d))),
            (FormatPlace::First(purpose), _) => self.take_instead(purpose, symbol),
            (FormatPlace::More(purpose, n), Symbol::Digit(d)) => {
                Ok(self.grow(purpose, with_digit(n, d)))
            }
            (FormatPlace::More(purpose, n), _) => {
                if n < purpose.smallest() {
                    Ok(false)
                } else {
                    self.take_behind(purpose, n, symbol)
                }
            }
            (FormatPlace::SignLetter, _) => self.take_sign_letter(symbol),
            (FormatPlace::DecimalLetter, _) => self.take_decimal_letter(symbol),
            (FormatPlace::Starred, _) => self.take_starred(symbol),
            (FormatPlace::Closing, _) => Ok(self.take_closing(symbol)),
        }
    }
}
