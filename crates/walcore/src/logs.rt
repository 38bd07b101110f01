//! What a run makes of the logs (own).
ghost use Rattle.std.specs.Prelude.{◌≡◌, ℕ, Bool, List, []};
ghost use Rattle.std.specs.List.{Contains};
ghost use Rattle.sqval.specs.PageSize.{IsPageSize};
ghost use Rattle.sqval.specs.Answers.{Answer};
ghost use Rattle.walcore.specs.LogLaws.{HasNewest, AreWords};
ghost use Rattle.walcore.specs.Machine.{Act, Opens, State, Step};
ghost use Rattle.walcore.specs.Made.{NoChance};
ghost use Rattle.walcore.specs.Making.{Made, Makes, Permits, nothing};

/// What a moment makes of the logs is determined; and each moment of a run makes something, so that the premises on a
/// run are about one list of logs. The premises can be met: by a first opening that finds no log, and by each log as it
/// was made.
pub fn logs_are_determined()
    ensures once { (size sector : ℕ) (tears : Bool) (old : Made) (act : Act) (answer : Answer) (new other : Made)
        → Makes size sector tears old act answer new → Makes size sector tears old act answer other → new ≡ other }
    ensures some { (sector : ℕ) (tears : Bool) (s : State) (old : Made) (act : Act) (answer : Answer) (b a : ℕ)
        (t : State)
        → IsPageSize s.page_size → HasNewest s.page_size old → AreWords act → Step s act answer b a t → (new : Made)
        × Makes s.page_size sector tears old act answer new × HasNewest s.page_size new }
    ensures first { (salts : ℕ × ℕ) (db : List ℕ) (answer : Answer)
        → Permits nothing (Opens salts (record { db = db; log = [] })) answer }
    ensures made { (logs : List (List ℕ)) (e : List ℕ) → Contains logs e → NoChance logs e }
{}
