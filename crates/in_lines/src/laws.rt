// Laws of the definitions.
ghost use Rattle.std.specs.Prelude.{◌≡◌, ◌<◌, ◌++◌, ℕ, ℤ, List, [], ◌∷◌, false, map};
ghost use Rattle.io_traits.specs.Pieces.{Came};
ghost use Rattle.in_lines.specs.Polls.{Poll, is_ended, lines_through, lines_by, received, received_at, rest_through};
ghost use Rattle.in_lines.specs.Sources.{GoOn, Look, from_source, is_source_ended, left_of, lefts_after, line_from, made_from, of_source, received_beside};
ghost use Rattle.in_lines.specs.Readings.{OneIsBehind};

/// The lines that came are the lines of all the bytes, each once and in their order. Which poll made a line whole
/// is told by its moment alone.
pub fn received_lines_are_those_of_all_bytes()
    ensures { (limit : ℕ) (polls : List Poll) → 0 < limit → map (λ r. r.line)
        (received limit polls) ≡ lines_through limit polls }
{}

/// Before the end of the input, one more poll adds the lines that its piece makes whole behind what was left, at
/// its moment, and changes none of those before.
pub fn each_poll_adds_the_lines_that_it_makes_whole()
    ensures { (limit : ℕ) (polls : List Poll) (poll : Poll) → 0 < limit → is_ended polls ≡ false
        → received limit (polls ++ poll ∷ []) ≡ received limit polls ++ received_at poll.moment (lines_by limit (rest_through limit polls) poll.piece) }
{}

/// Bytes that come in two pieces have the same lines as where they come in one, whatever came before and comes
/// behind.
pub fn cutting_a_piece_changes_no_line()
    ensures { (limit : ℕ) (before after : List Poll) (moment earlier later : ℤ)
        (bytes more : List ℕ)
        → lines_through limit (before ++ record { moment = earlier; piece = Came bytes } ∷ record { moment = later; piece = Came more } ∷ after)
        ≡ lines_through limit (before ++ record { moment = moment; piece = Came (bytes ++ more) } ∷ after) }
{}

/// Where lines come from several sources beside each other, those of each source are the lines of its own polls, each once, in their
/// order and at its moment, so that sources leave each other alone; and one source alone has the lines of its polls.
pub fn each_source_has_the_lines_of_its_polls()
    ensures each { (limit n : ℕ) (looks : List Look) → of_source n (received_beside limit looks)
        ≡ received limit (of_source n looks) }
    ensures alone { (limit n : ℕ) (polls : List Poll) → received_beside limit (from_source n polls)
        ≡ from_source n (received limit polls) }
{}

/// Before the end of its source, one more look adds the lines that its piece makes whole of what was left of that source, at its
/// moment, and behind all that stood before: lines stand in the order in which they became whole.
pub fn each_look_adds_the_lines_that_it_makes_whole()
    ensures { (limit : ℕ) (looks : List Look) (look : Look) → 0 < limit
        → is_source_ended look.0 looks ≡ false
        → received_beside limit (looks ++ look ∷ []) ≡ received_beside limit looks
        ++ from_source look.0 (received_at look.1.moment (lines_by limit (left_of limit look.0 looks) look.1.piece)) }
{}

/// Bytes that come in two pieces one after the other have the same lines as where they come in one, in the same order among those of
/// all sources, whatever came before and comes behind.
pub fn cutting_a_piece_of_a_source_changes_no_line()
    ensures { (limit n : ℕ) (before after : List Look) (moment earlier later : ℤ)
        (bytes more : List ℕ) → 0 < limit
        → map line_from (received_beside limit (before ++ (n, record { moment = earlier; piece = Came bytes }) ∷ (n, record { moment = later; piece = Came more }) ∷ after))
        ≡ map line_from (received_beside limit (before ++ (n, record { moment = moment; piece = Came (bytes ++ more) }) ∷ after)) }
{}

/// Whoever keeps no more than what is left of each source gives the same lines: those that further looks make whole of it stand behind
/// all those before, where none of the looks is behind the end of its source.
pub fn looks_go_on_from_what_is_left()
    ensures lines { (limit : ℕ) (looks more : List Look) → 0 < limit → GoOn looks more
        → received_beside limit (looks ++ more)
        ≡ received_beside limit looks ++ made_from limit (λ n. left_of limit n looks) more }
    ensures left { (limit n : ℕ) (looks more : List Look) → 0 < limit → GoOn looks more
        → left_of limit n (looks ++ more)
        ≡ lefts_after limit (λ m. left_of limit m looks) more n }
{}

/// Where lines were given, one place alone stands behind them in the bytes that came.
pub fn one_place_is_behind_the_lines()
    ensures { OneIsBehind }
{}
