// Lists and sums: definitions and laws that several floors cite, and the search for the lowest index that a test is true of.
#![tactic(auto)]

ghost use Rattle.std.specs.Prelude.{◌≡◌, ◌<◌, ℕ, Bool};
ghost use Rattle.lists.specs.Lowest.{lowest_index};

// "The lowest faulty index is given": the lowest below n that the test is true of, or none.
pub fn lowest_index<F: Fn(usize) -> bool>(n: usize, test: F) -> Option<usize>
    requires { (i : ℕ) → i < n → F.pre test i }
    ensures { (f : ℕ → Bool) → ((i : ℕ) (b : Bool) → i < n → F.post test i b → b ≡ f i) → result ≡ lowest_index n f }
{
    for i in 0..n {
        if test(i) {
            return Some(i);
        }
    }
    None
}
