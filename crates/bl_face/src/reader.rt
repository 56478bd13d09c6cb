//! The reader of a face: what is known after each token.

ghost use Rattle.std.specs.Prelude.{◌≡◌, ◌≤◌, [], true, None, length, slice_range, pos, neg_ℤ, IfOk, OnOk};
ghost use Rattle.bl_tree.specs.Words.{is_name};
ghost use Rattle.bl_tree.specs.declared.token.TokenKind.{TokenKind};
ghost use Rattle.bl_face.specs.Lexemes.{lexeme_at};
ghost use Rattle.bl_face.specs.Lexemes.Lexeme.{named, marked};
ghost use Rattle.bl_face.specs.declared.item.FaceBase.{FaceBase};
ghost use Rattle.bl_face.specs.inner.Reader.{with_part, with_struct, with_constant, with_head, with_inputs, with_name, with_part_name};
ghost use Rattle.bl_face.specs.inner.Reader.{after_name, after_begin, after_outputs, after_field, after_input, after_part, after_type};
ghost use Rattle.bl_face.specs.inner.Reader.{after_length, after_returns, after_const, after_value, after_minus, after_mark, step, Steps};
ghost use Rattle.bl_face.specs.inner.Reader.{at_end, read_items, nothing_read};
ghost use Rattle.bl_face.specs.Spells.{kept_number};

use crate::class::{Class, Mark, class_of};
use crate::item::{FaceBase, FaceField, FaceItem, FaceType};
use crate::state::{Slot, State, is_end, next_mark, next_name};
use bl_tree::token::Token;
use bl_tree::tree::UnitKind;
use bl_tree::{List, NoMemory, Scalar, Text};
use std::alloc::Global;
use std::mem;

/// The greatest length that is kept.
const MOST_LENGTH: u128 = 0xffff_ffff;

/// The kept value of every number that is greater than all types have.
const GREATEST: u128 = 0x1_0000_0000_0000_0000;

/// What was read.
#[derive(Drop)]
pub struct Reader {
    pub state: State,
    /// The items that have ended.
    pub items: List<FaceItem>,
    /// The name of the item that hasn't ended.
    pub name: Text,
    pub kind: UnitKind,
    /// The type of the constant.
    pub scalar: Scalar,
    pub inputs: List<FaceField>,
    /// The fields, inputs or outputs so far.
    pub parts: List<FaceField>,
    /// The name of the one that hasn't ended.
    pub part: Text,
    /// The lengths of its type so far.
    pub lengths: List<u32>,
}

impl Reader {
    /// Nothing was read.
    pub fn new(alloc: Global) -> Reader
        ensures { result ≡ nothing_read }
    {
        Reader {
            state: State::Items,
            items: List::new(alloc),
            name: empty(alloc),
            kind: UnitKind::Function,
            scalar: Scalar::Bool,
            inputs: List::new(alloc),
            parts: List::new(alloc),
            part: empty(alloc),
            lengths: List::new(alloc),
        }
    }

    /// Reads the token of a text, if it may follow.
    pub fn take(&mut self, alloc: Global, text: &[u8], token: Token) -> Result<bool, NoMemory>
        requires in_order { token.place.start ≤ token.place.end }
        requires inside { token.place.end ≤ length text.now }
        requires named { token.kind ≡ TokenKind.Name → is_name (slice_range text.now token.place.start token.place.end) ≡ true }
        ensures { IfOk result (λ taken. Steps (step self.old (lexeme_at text.now token)) taken self.new) }
    {
        match class_of(token.kind) {
            Class::Name => {
                let bytes = &text[token.place.start as usize..token.place.end as usize];
                self.take_name(alloc, text_of(bytes))
            }
            Class::Mark(mark) => self.take_mark(alloc, mark),
        }
    }

    fn take_name(&mut self, alloc: Global, name: &str) -> Result<bool, NoMemory>
        ensures { IfOk result (λ taken. Steps (step self.old (named name.now)) taken self.new) }
    {
        match next_name(self.state) {
            Some(state) => {
                self.read_name(alloc, name)?;
                self.state = state;
                Ok(true)
            }
            None => Ok(false),
        }
    }

    fn take_mark(&mut self, alloc: Global, mark: Mark) -> Result<bool, NoMemory>
        ensures { IfOk result (λ taken. Steps (step self.old (marked mark)) taken self.new) }
    {
        match next_mark(self.state, mark) {
            Some(state) => {
                self.read_mark(alloc, mark)?;
                self.state = state;
                Ok(true)
            }
            None => Ok(false),
        }
    }

    /// The items, if the text may end here.
    pub fn finish(&mut self, alloc: Global) -> Result<Option<List<FaceItem>>, NoMemory>
        ensures { IfOk result (λ items. items ≡ read_items self.old) }
    {
        if !is_end(self.state) {
            return Ok(None);
        }
        self.end_unit(alloc)?;
        Ok(Some(mem::replace(&mut self.items, List::new(alloc))))
    }

    fn end_unit(&mut self, alloc: Global) -> Result<(), NoMemory>
        ensures { OnOk result (self.new ≡ at_end self.old.state self.old) }
    {
        match self.state {
            State::Outputs => self.push_head(alloc, None),
            _ => Ok(()),
        }
    }

    fn read_name(&mut self, alloc: Global, name: &str) -> Result<(), NoMemory>
        ensures { OnOk result (self.new ≡ after_name self.old.state self.old name.now) }
    {
        match self.state {
            State::Struct | State::Unit | State::Const => self.name_item(alloc, name),
            State::First(_) | State::Part(_) => self.name_part(alloc, name),
            State::Type(_) => self.push_struct_part(alloc, name),
            _ => Ok(()),
        }
    }

    fn name_item(&mut self, alloc: Global, name: &str) -> Result<(), NoMemory>
        ensures { OnOk result (self.new ≡ with_name self.old name.now) }
    {
        self.name = Text::copy_of(alloc, name)?;
        self.parts = List::new(alloc);
        Ok(())
    }

    fn name_part(&mut self, alloc: Global, name: &str) -> Result<(), NoMemory>
        ensures { OnOk result (self.new ≡ with_part_name self.old name.now) }
    {
        self.part = Text::copy_of(alloc, name)?;
        self.lengths = List::new(alloc);
        Ok(())
    }

    fn push_struct_part(&mut self, alloc: Global, name: &str) -> Result<(), NoMemory>
        ensures { OnOk result (self.new ≡ with_part self.old (FaceBase.Struct name.now)) }
    {
        let name = Text::copy_of(alloc, name)?;
        self.push_part(alloc, FaceBase::Struct(name))
    }

    fn push_part(&mut self, alloc: Global, base: FaceBase) -> Result<(), NoMemory>
        ensures { OnOk result (self.new ≡ with_part self.old base) }
    {
        let name = mem::replace(&mut self.part, empty(alloc));
        let lengths = mem::replace(&mut self.lengths, List::new(alloc));
        let ty = FaceType { lengths, base };
        self.parts.push(FaceField { name, ty })?;
        Ok(())
    }

    fn read_mark(&mut self, alloc: Global, mark: Mark) -> Result<(), NoMemory>
        ensures { OnOk result (self.new ≡ after_mark self.old.state self.old mark) }
    {
        match self.state {
            State::Items => {
                self.begin(mark);
                Ok(())
            }
            State::Outputs => self.read_behind_outputs(alloc, mark),
            State::First(slot) | State::TypeEnd(slot) => self.read_behind_part(alloc, slot, mark),
            State::Type(_) => self.read_type(alloc, mark),
            State::Length(_) => self.read_length(mark),
            State::Returns => self.read_result(alloc, mark),
            State::ConstType => {
                self.read_const_type(mark);
                Ok(())
            }
            State::Value => self.read_value(alloc, mark),
            State::Minus => self.read_number(alloc, mark),
            _ => Ok(()),
        }
    }

    fn begin(&mut self, mark: Mark)
        ensures { self.new ≡ after_begin self.old mark }
    {
        match mark {
            Mark::Unit(kind) => self.kind = kind,
            _ => {}
        }
    }

    fn read_behind_outputs(&mut self, alloc: Global, mark: Mark) -> Result<(), NoMemory>
        ensures { OnOk result (self.new ≡ after_outputs self.old mark) }
    {
        match mark {
            Mark::Returns => Ok(()),
            _ => {
                self.push_head(alloc, None)?;
                self.begin(mark);
                Ok(())
            }
        }
    }

    fn read_behind_part(&mut self, alloc: Global, slot: Slot, mark: Mark) -> Result<(), NoMemory>
        ensures { OnOk result (self.new ≡ after_part slot self.old mark) }
    {
        match slot {
            Slot::Field => self.read_behind_field(alloc, mark),
            Slot::Input => {
                self.read_behind_input(alloc, mark);
                Ok(())
            }
            Slot::Output => Ok(()),
        }
    }

    fn read_behind_field(&mut self, alloc: Global, mark: Mark) -> Result<(), NoMemory>
        ensures { OnOk result (self.new ≡ after_field self.old mark) }
    {
        match mark {
            Mark::End => self.push_struct(alloc),
            _ => Ok(()),
        }
    }

    fn push_struct(&mut self, alloc: Global) -> Result<(), NoMemory>
        ensures { OnOk result (self.new ≡ with_struct self.old) }
    {
        let name = mem::replace(&mut self.name, empty(alloc));
        let fields = mem::replace(&mut self.parts, List::new(alloc));
        self.items.push(FaceItem::Struct(name, fields))?;
        Ok(())
    }

    fn read_behind_input(&mut self, alloc: Global, mark: Mark)
        ensures { self.new ≡ after_input self.old mark }
    {
        match mark {
            Mark::CloseParen => self.end_inputs(alloc),
            _ => {}
        }
    }

    fn end_inputs(&mut self, alloc: Global)
        ensures { self.new ≡ with_inputs self.old }
    {
        self.inputs = mem::replace(&mut self.parts, List::new(alloc));
    }

    fn read_type(&mut self, alloc: Global, mark: Mark) -> Result<(), NoMemory>
        ensures { OnOk result (self.new ≡ after_type self.old mark) }
    {
        match mark {
            Mark::Scalar(of) => self.push_part(alloc, FaceBase::Scalar(of)),
            _ => Ok(()),
        }
    }

    fn read_length(&mut self, mark: Mark) -> Result<(), NoMemory>
        ensures { OnOk result (self.new ≡ after_length self.old mark) }
    {
        match mark {
            Mark::Number(n) => Ok(self.lengths.push(n.min(MOST_LENGTH) as u32)?),
            _ => Ok(()),
        }
    }

    fn read_result(&mut self, alloc: Global, mark: Mark) -> Result<(), NoMemory>
        ensures { OnOk result (self.new ≡ after_returns self.old mark) }
    {
        match mark {
            Mark::Scalar(of) => self.push_head(alloc, Some(of)),
            _ => Ok(()),
        }
    }

    fn push_head(&mut self, alloc: Global, given: Option<Scalar>) -> Result<(), NoMemory>
        ensures { OnOk result (self.new ≡ with_head self.old given) }
    {
        let name = mem::replace(&mut self.name, empty(alloc));
        let inputs = mem::replace(&mut self.inputs, List::new(alloc));
        let outputs = mem::replace(&mut self.parts, List::new(alloc));
        self.items
            .push(FaceItem::Head(self.kind, name, inputs, outputs, given))?;
        Ok(())
    }

    fn read_const_type(&mut self, mark: Mark)
        ensures { self.new ≡ after_const self.old mark }
    {
        match mark {
            Mark::Scalar(of) => self.scalar = of,
            _ => {}
        }
    }

    fn read_value(&mut self, alloc: Global, mark: Mark) -> Result<(), NoMemory>
        ensures { OnOk result (self.new ≡ after_value self.old mark) }
    {
        match mark {
            Mark::Truth(true) => self.push_constant(alloc, 1),
            Mark::Truth(false) => self.push_constant(alloc, 0),
            Mark::Number(n) => self.push_constant(alloc, kept_number(n)),
            _ => Ok(()),
        }
    }

    fn read_number(&mut self, alloc: Global, mark: Mark) -> Result<(), NoMemory>
        ensures { OnOk result (self.new ≡ after_minus self.old mark) }
    {
        match mark {
            Mark::Number(n) => self.push_constant(alloc, negative_number(n)),
            _ => Ok(()),
        }
    }

    fn push_constant(&mut self, alloc: Global, value: i128) -> Result<(), NoMemory>
        ensures { OnOk result (self.new ≡ with_constant self.old value) }
    {
        let name = mem::replace(&mut self.name, empty(alloc));
        self.items
            .push(FaceItem::Constant(name, self.scalar, value))?;
        Ok(())
    }
}

fn kept_number(n: u128) -> i128
    ensures { result ≡ pos (kept_number n) }
{
    n.min(GREATEST) as i128
}

fn negative_number(n: u128) -> i128
    ensures { result ≡ neg_ℤ (pos (kept_number n)) }
{
    -(n.min(GREATEST) as i128)
}

fn empty(alloc: Global) -> Text
    ensures { result ≡ [] }
{
    Text::from_string(String::new(alloc))
}

/// The bytes of a name as text.
fn text_of(bytes: &[u8]) -> &str
    requires { is_name bytes.now ≡ true }
    ensures { result.now ≡ bytes.now }
{
    match std::str::from_utf8(bytes) {
        Ok(text) => text,
        Err(_) => unreachable!(),
    }
}
