//! Handing out what a record is made of, from the left.
ghost use Rattle.std.specs.Prelude.{◌≡◌, ◌+◌, ◌*◌, ◌<◌, ◌≤◌, List, length, take, drop, slice_index};
ghost use Rattle.forest.specs.Events.{ToCome};
ghost use Rattle.forest.specs.Reading.{Token};

use super::event::Event;
use super::marks::{CLOSING, OPENING};

/// What of a record is still to be handed out: the events from an offset on.
#[derive(Clone, Copy, PartialEq, Eq, Debug)]
pub struct Events<'a> {
    pub(super) body: &'a [u8],
    pub(super) at: usize,
    ghost inside: { at ≤ length body.now },
    ghost whole: { ∥ ((ts : List Token) × ToCome body.now at ts) ∥₁ },
}

/// The label of the opening at `at`.
fn label_at(body: &[u8], at: usize) -> u16
    requires { at + 2 < length body.now }
    ensures { result ≡ slice_index body.now (at + 1) * 256 + slice_index body.now (at + 2) }
{
    u16::from_be_bytes([body[at + 1], body[at + 2]])
}

/// The bytes of the text at `at`.
fn text_at(body: &[u8], at: usize) -> &[u8]
    requires { (at + 1 < length body.now) × (at + 2 + slice_index body.now (at + 1) ≤ length body.now) }
    ensures { result.now ≡ take (slice_index body.now (at + 1)) (drop (at + 2) body.now) }
{
    let start = at + 2;
    &body[start..start + usize::from(body[at + 1])]
}

/// The events from the left, none after the last.
impl<'a> Iterator for Events<'a> {
    ghost use Rattle.std.specs.Prelude.{◌-◌};
    ghost use Rattle.std.specs.Iterator.{at_most};
    ghost use Rattle.forest.specs.Handing.{HandsOut};

    type Item = Event<'a>;

    ghost next_gives = { HandsOut };

    ghost remaining = { λ s. at_most (length s.body.now - s.at) };

    // By the mark alone: patterns of slices would look again at lengths that the checked body is known to have, and took
    // a tenth more instructions on texts.
    fn next(&mut self) -> Option<Event<'a>> {
        let body = self.body;
        let at = self.at;
        if at == body.len() {
            return None;
        }
        match body[at] {
            OPENING => {
                let label = label_at(body, at);
                self.at = at + 3;
                Some(Event::Opening { label })
            }
            CLOSING => {
                self.at = at + 1;
                Some(Event::Closing)
            }
            _ => {
                let bytes = text_at(body, at);
                self.at = at + 2 + bytes.len();
                Some(Event::Text {
                    bytes,
                    offset: at + 2,
                })
            }
        }
    }
}
