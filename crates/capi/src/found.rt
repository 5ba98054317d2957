// An answer as C has it: the number is returned, 0 or a refusal's; the count or the detail stands in a cell.
ghost use Rattle.std.specs.Prelude.{◌≡◌};
ghost use Rattle.search.specs.Refusal.{told};

use refusal::Refusal;

pub fn flatten(answer: Result<u32, Refusal>, count: &mut u32) -> u32
    ensures number { result ≡ (told answer).number }
    ensures count { count.new ≡ (told answer).detail }
{
    match answer {
        Ok(found) => {
            *count = found;
            0
        }
        Err(refusal) => {
            *count = refusal.detail();
            refusal.number()
        }
    }
}
