ghost use Rattle.std.specs.Prelude.{◌≡◌, ◌≤◌, ◌∷◌, [], map};

use transfer_rules::RuleBook;

/// The book of a table of mask rules.
pub fn book_of(books: &[RuleBook], table: u32) -> &RuleBook
    requires books { map (λ book. book.table) books.now ≡ 1 ∷ 2 ∷ 3 ∷ [] }
    requires first { 1 ≤ table }
    requires last { table ≤ 3 }
    ensures { result.now.table ≡ table }
{
    match table {
        1 => &books[0],
        2 => &books[1],
        _ => &books[2],
    }
}
