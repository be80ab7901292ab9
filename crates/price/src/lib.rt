// The price of a job: a search, and then the tariff. The buffers stand apart, as C lends them.
#![tactic(auto)]

ghost use Rattle.std.specs.Prelude.{◌≡◌};
ghost use Rattle.answers.specs.Reasons.{number_of};
ghost use Rattle.price.specs.Price.{PriceOutcome, refused_answer};
ghost use Rattle.tables.specs.Buffers.{tables};

use answers::{Answer, Reason};

// What pricing answers.
#[repr(C)]
#[derive(Clone, Copy, Debug, Default, PartialEq, Eq)]
pub struct PriceAnswer {
    pub answer: Answer,
    // the price, in pence
    pub pence: u32,
}

// What a refused call answers: 0 pence.
impl From<Reason> for PriceAnswer {
    ghost from_gives = { λ reason answer. answer ≡ refused_answer (number_of reason) };

    fn from(reason: Reason) -> PriceAnswer {
        PriceAnswer {
            answer: Answer::from(reason),
            pence: 0,
        }
    }
}

// Prices a text (chain) that is converted by a pattern (motif) and a hold offset (hold place). Each
// occurrence (find) has a hold of its own, so that the holds need not be written to be counted.
pub fn price(
    hold_offset: u32,
    pattern: &[u8],
    text: &[u8],
    order: &mut [i16],
    delta2: &mut [u16],
    delta1: &mut [u16],
    delta3: &mut [u16],
    found: &mut [u16],
) -> PriceAnswer
    ensures { PriceOutcome hold_offset pattern.now text.now
        (tables order.old delta2.old delta1.old delta3.old)
        (tables order.new delta2.new delta1.new delta3.new)
        found.old found.new result }
{
    let lengths = tables::lengths(order, delta2, delta1, delta3);
    let hold_offset = hold_offset as usize;
    let n = text.len();
    if let Err(reason) = tables::check(pattern.len(), hold_offset, n, lengths, found.len() < n) {
        return PriceAnswer::from(reason);
    }
    let searched = search::search_within(pattern, text, order, delta2, delta1, delta3, found);
    PriceAnswer {
        answer: Answer::default(),
        pence: price_tariff::cost_by_holds(text, searched.occurrences),
    }
}
