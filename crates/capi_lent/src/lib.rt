// An answer's numbers, handed over in a lent array.
#![tactic(auto)]

ghost use Rattle.std.specs.Prelude.{◌≡◌};
ghost use Rattle.answers.specs.Numbers.{kind_number};
ghost use Rattle.capi_lent.specs.Lent.{filled, filled_by};

use answers::Numbers;

// Three numbers to the front of the lent array, as many as it has room for, and the first of them, which is a kind's number.
pub fn hand_over_numbers(kind: u32, first: u64, second: u64, answer: &mut [u64]) -> u32
    ensures kind { result ≡ kind }
    ensures answer { answer.new ≡ filled_by answer.old kind first second }
{
    let words = [u64::from(kind), first, second];
    let room = answer.len().min(words.len());
    answer[..room].copy_from_slice(&words[..room]);
    kind
}

// The numbers of an answer to the front of the lent array, as many as it has room for, and the kind.
pub fn hand_over(numbers: Numbers, answer: &mut [u64]) -> u32
    ensures kind { result ≡ kind_number numbers.kind }
    ensures answer { answer.new ≡ filled answer.old numbers }
{
    hand_over_numbers(
        u32::from(numbers.kind),
        numbers.first,
        numbers.second,
        answer,
    )
}
