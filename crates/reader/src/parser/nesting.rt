// Constants with what messages and lists hold, and types with what maps hold: one loop over the brackets that are open.
ghost use Rattle.std.specs.Prelude.{◌≡◌, false, []};
ghost use Rattle.grammar.specs.Grammar.{constant, type};
ghost use Rattle.store.specs.Stacks.{items};
ghost use Rattle.reader.specs.Nesting.{inner};
ghost use Rattle.reader.specs.Replies.{KeepsLoans, ReadsForest};
ghost use Rattle.reader.specs.Turns.{open_in, Begins, Turns, Innermost, Within, complete, whole};
ghost use Rattle.reader.specs.declared.frames.Frame.{Frame};
ghost use Rattle.reader.specs.declared.frames.Due.{Due};

use super::Parser;
use crate::frames::{Due, Frame};
use crate::nesting::{MOST_BRACKETS, Nesting};
use crate::tokenizer::{
    next_symbol_expect_eq, next_symbol_if_eq, next_symbol_if_in, no_room, refusal,
};
use grammar::{ParserError, ReadFault};
use store::{Item, Shape, Stack, Value};
use token::{Kind, Source};

// Whether the constant or the type is complete: it has ended, and no bracket is open.
fn is_complete(due: Due, frames: &Stack<Frame>) -> bool
    ensures { result ≡ complete due (items frames.now) }
{
    due == Due::Nothing && frames.is_empty()
}

// The brackets go beside the parser. A struct that holds both was tried: what is lent through two structs is lost to the proof of
// the function that lent it.
impl<'s, 'o, S: Source> Parser<'s, 'o, S> {
    // A message opens, if there is room for one bracket more. It and a list differ in more than the bracket: a list may be empty.
    fn open_message(&mut self, frames: &mut Stack<Frame>) -> Result<Due, ReadFault>
        ensures turns { Turns S.ahead frames.old frames.new Due.Message result self.old self.new }
        ensures same { KeepsLoans self.old self.new }
    {
        if frames.push(Frame::MessageConstant).is_err() {
            return Err(no_room(self.source, b'{'));
        }
        next_symbol_expect_eq(self.source, b'{')?;
        self.out.open(Item::Constant(Value::Message));
        Ok(Due::Entry)
    }

    // A list opens, if there is room for one bracket more.
    fn open_list(&mut self, frames: &mut Stack<Frame>) -> Result<Due, ReadFault>
        ensures turns { Turns S.ahead frames.old frames.new Due.List result self.old self.new }
        ensures same { KeepsLoans self.old self.new }
    {
        if frames.push(Frame::ListConstant).is_err() {
            return Err(no_room(self.source, b'['));
        }
        next_symbol_expect_eq(self.source, b'[')?;
        if next_symbol_if_eq(self.source, b']')? {
            let _ = frames.pop();
            self.out.put(Item::Constant(Value::List));
            return Ok(Due::Nothing);
        }
        self.out.open(Item::Constant(Value::List));
        Ok(Due::Constant)
    }

    // The types of a map open, if there is room for one bracket more. A message differs in the bracket, its frame, its record and what
    // is due then: one function over the four would be no plainer.
    fn open_map(&mut self, frames: &mut Stack<Frame>) -> Result<Due, ReadFault>
        ensures turns { Turns S.ahead frames.old frames.new Due.Map result self.old self.new }
        ensures same { KeepsLoans self.old self.new }
    {
        if frames.push(Frame::MapKey).is_err() {
            return Err(no_room(self.source, b'<'));
        }
        next_symbol_expect_eq(self.source, b'<')?;
        self.out.open(Item::Type(Shape::Map));
        Ok(Due::Type)
    }

    // An entry of the innermost message is due, or its end.
    fn next_entry(&mut self, frames: &mut Stack<Frame>) -> Result<Due, ReadFault>
        requires { Innermost Frame.MessageConstant (open_in frames.old) }
        ensures turns { Turns S.ahead frames.old frames.new Due.Entry result self.old self.new }
        ensures same { KeepsLoans self.old self.new }
    {
        if next_symbol_if_eq(self.source, b'}')? {
            let _ = frames.pop();
            self.out.close();
            return Ok(Due::Nothing);
        }
        let key = self.next_message_constant_field_name()?;
        self.out.open(Item::Name(key));
        if next_symbol_if_eq(self.source, b':')? {
            return Ok(Due::Constant);
        }
        Ok(Due::Message)
    }

    // A constant or a type has ended in the bracket `frame`.
    fn go_on(&mut self, frame: Frame, frames: &mut Stack<Frame>) -> Result<Due, ReadFault>
        requires { Innermost frame (open_in frames.old) }
        ensures turns { Turns S.ahead frames.old frames.new Due.Nothing result self.old self.new }
        ensures same { KeepsLoans self.old self.new }
    {
        match frame {
            Frame::MessageConstant => {
                self.out.close();
                let _ = next_symbol_if_in(self.source, b',', b';')?;
                Ok(Due::Entry)
            }
            Frame::ListConstant => {
                if next_symbol_if_eq(self.source, b',')? {
                    return Ok(Due::Constant);
                }
                next_symbol_expect_eq(self.source, b']')?;
                let _ = frames.pop();
                self.out.close();
                Ok(Due::Nothing)
            }
            Frame::MapKey => {
                next_symbol_expect_eq(self.source, b',')?;
                frames.set_top(Frame::MapValue);
                Ok(Due::Type)
            }
            Frame::MapValue => {
                next_symbol_expect_eq(self.source, b'>')?;
                let _ = frames.pop();
                self.out.close();
                Ok(Due::Nothing)
            }
        }
    }

    // One turn: reads what is due, and answers what is due then. The step is told by an enum and a stack in fixed memory, since
    // what nests is read without recursion and without a heap.
    fn next_turn(&mut self, due: Due, frames: &mut Stack<Frame>) -> Result<Due, ReadFault>
        requires within { Within due (open_in frames.old) }
        requires incomplete { complete due (items frames.old) ≡ false }
        ensures turns { Turns S.ahead frames.old frames.new due result self.old self.new }
        ensures same { KeepsLoans self.old self.new }
    {
        match due {
            Due::Constant => self.next_plain_constant(),
            Due::Message => self.open_message(frames),
            Due::List => self.open_list(frames),
            Due::Entry => self.next_entry(frames),
            Due::Nothing => match frames.top() {
                Some(frame) => self.go_on(frame, frames),
                None => Ok(Due::Nothing),
            },
            Due::Type => self.next_plain_type(),
            Due::Map => self.open_map(frames),
        }
    }

    // A constant, or which bracket opens it.
    pub fn next_plain_constant(&mut self) -> Result<Due, ReadFault>
        ensures begins { Begins S.ahead self.old self.new result }
        ensures same { KeepsLoans self.old self.new }
    {
        match self.source.look()?.kind {
            Kind::Symbol => match self.source.byte(0) {
                b'{' => return Ok(Due::Message),
                b'[' => return Ok(Due::List),
                // An arm for each sign: one for both would test it again.
                b'+' => {
                    self.source.take();
                    self.next_signed_number(false)?;
                }
                b'-' => {
                    self.source.take();
                    self.next_signed_number(true)?;
                }
                _ => return Err(refusal(self.source, ParserError::ExpectConstant)),
            },
            Kind::IntLit | Kind::FloatLit => self.next_signed_number(false)?,
            Kind::StrLit => {
                let text = self.take_text();
                self.out.put(Item::Constant(Value::Text(text)));
            }
            Kind::Ident => self.next_word_constant()?,
            Kind::End => return Err(refusal(self.source, ParserError::EndOfFile)),
        }
        Ok(Due::Nothing)
    }

    // What is due, with all that its brackets hold.
    fn next_nested(&mut self, first: Due, nesting: Nesting) -> Result<(), ReadFault>
        requires { Within first [] }
        ensures reads { ReadsForest S.ahead self.old self.new result (whole (inner nesting) first) }
        ensures same { KeepsLoans self.old self.new }
    {
        // Slots in fixed memory, lent to the stack.
        let mut slots = [Frame::ListConstant; MOST_BRACKETS];
        let left = nesting.left();
        let mut frames = Stack::new(&mut slots[..left]);
        let mut due = first;
        'turns: while !is_complete(due, &frames) {
            due = self.next_turn(due, &mut frames)?;
        }
        Ok(())
    }

    // A constant, with all that its brackets hold.
    pub fn next_constant(&mut self, nesting: Nesting) -> Result<(), ReadFault>
        ensures reads { ReadsForest S.ahead self.old self.new result (constant (inner nesting)) }
        ensures same { KeepsLoans self.old self.new }
    {
        self.next_nested(Due::Constant, nesting)
    }

    // scalar | "map" "<" type "," type ">" | fullIdent
    pub fn next_field_type(&mut self, nesting: Nesting) -> Result<(), ReadFault>
        ensures reads { ReadsForest S.ahead self.old self.new result (type (inner nesting)) }
        ensures same { KeepsLoans self.old self.new }
    {
        self.next_nested(Due::Type, nesting)
    }
}
