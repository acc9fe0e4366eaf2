// Operators with their spaces.
ghost use Rattle.words.specs.Forms.{operators};
ghost use Rattle.words.specs.Readings.{Reads};

use expr::code::{Joint, Order, Sign};
use model_text::Operator;

// One of the eight operators.
pub fn read_operator(text: &[u8]) -> Option<(Operator, &[u8])>
    ensures { Reads operators text.now result }
{
    let (operator, rest) = match text {
        [b' ', b'&', b' ', rest @ ..] => (Operator::Join(Joint::And), rest),
        [b' ', b'|', b' ', rest @ ..] => (Operator::Join(Joint::Or), rest),
        [b' ', b'=', b' ', rest @ ..] => (Operator::Test(Order::Eq), rest),
        [b' ', b'!', b'=', b' ', rest @ ..] => (Operator::Test(Order::Ne), rest),
        [b' ', b'<', b' ', rest @ ..] => (Operator::Test(Order::Lt), rest),
        [b' ', b'<', b'=', b' ', rest @ ..] => (Operator::Test(Order::Le), rest),
        [b' ', b'+', b' ', rest @ ..] => (Operator::Sum(Sign::Plus), rest),
        [b' ', b'-', b' ', rest @ ..] => (Operator::Sum(Sign::Minus), rest),
        _ => return None,
    };
    Some((operator, rest))
}
