//! What a merge of one book's floors into another means.

ghost use Rattle.std.specs.Prelude.{◌≡◌, [], List};
ghost use Rattle.history_model.specs.History.{StatementNumber};
ghost use Rattle.history_model.specs.Merges.{seen_by_both};
ghost use Rattle.history_model.specs.Notes.{new_statement, seen};
ghost use Rattle.statement_views.specs.declared.sessions.Sessions.{Sessions};
ghost use Rattle.session_book.specs.Books.{NotesAre, seen_in};
ghost use Rattle.session_book.specs.Merges.{IsMerged};
ghost use Rattle.session_book.specs.Records.{session_notes};
ghost use Rattle.session_book.specs.declared.book.Book.{Book};

/// Where the floors of another book were merged into a book, each statement that either of them covered is covered: what is new now
/// was new by both. So a client's retry is answered by either shard.
pub fn merged_floors_cover()
    ensures { (own other after : Book) (floors : Sessions) → NotesAre other (session_notes floors.sessions.items) → IsMerged own floors after
        → (n : StatementNumber) → seen_in after n ≡ new_statement → (seen_in own n ≡ new_statement) × (seen_in other n ≡ new_statement) }
{}

/// The floors of a book, merged into a new one, make a book that returns the same as the first.
pub fn floors_make_the_book()
    ensures { (own other after : Book) (floors : Sessions) → NotesAre own [] → NotesAre other (session_notes floors.sessions.items) → IsMerged own floors after
        → (n : StatementNumber) → seen_in after n ≡ seen_in other n }
{}
