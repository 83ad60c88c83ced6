// Where statements go on.
ghost use Rattle.std.specs.Prelude.{◌≡◌};
ghost use Rattle.qs_lower.specs.Statements as statements;
ghost use Rattle.qs_lower_expressions.specs.Plans.{exit_tree};
ghost use Rattle.qs_lower.specs.Ways.{way_tree, option_way, falls_tree, exits_tree};

use qs_lower_expressions::Exit;

/// Where a statement goes that does nothing else.
#[derive(Clone, Copy)]
pub enum Way {
    /// to what is next
    Next,
    /// out of the loop or switch
    Break,
    /// to the step of the loop
    Continue,
}

/// Which of a statement's exits come next.
#[derive(Clone, Copy)]
pub struct Falls {
    /// what is next
    pub next: bool,
    /// what a break goes to
    pub on_break: bool,
    /// what a continue goes to
    pub on_continue: bool,
}

/// Where a statement goes on, after a break, and after a continue.
#[derive(Clone, Copy)]
pub struct Exits {
    /// what is next
    pub next: Exit,
    /// after a break
    pub on_break: Exit,
    /// after a continue
    pub on_continue: Exit,
}

/// Whether it goes to what is next.
pub fn is_next(w: Option<Way>) -> bool
    ensures { result ≡ statements.is_next (option_way w) }
{
    match w {
        None => false,
        Some(Way::Next) => true,
        Some(Way::Break) => false,
        Some(Way::Continue) => false,
    }
}

impl Way {
    /// Whether it goes out of the loop or switch.
    pub fn is_break(self) -> bool
        ensures { result ≡ statements.is_break (way_tree self) }
    {
        match self {
            Way::Next => false,
            Way::Break => true,
            Way::Continue => false,
        }
    }

    /// Whether it goes elsewhere than to what is next.
    pub fn leaves(self) -> bool
        ensures { result ≡ statements.leaves (way_tree self) }
    {
        match self {
            Way::Next => false,
            Way::Break => true,
            Way::Continue => true,
        }
    }
}

impl Exits {
    /// The exit that is a way.
    pub fn to(self, w: Way) -> Exit
        ensures { exit_tree result ≡ statements.exit_to (way_tree w) (exits_tree self) }
    {
        match w {
            Way::Next => self.next,
            Way::Break => self.on_break,
            Way::Continue => self.on_continue,
        }
    }

    /// Those of a part behind which only this way goes on.
    pub fn redirected(self, w: Way) -> Exits
        ensures { exits_tree result ≡ statements.redirected_exits (way_tree w) (exits_tree self) }
    {
        Exits {
            next: self.to(w),
            ..self
        }
    }

    /// Those of a part that doesn't stand at the end of the code.
    pub fn elsewhere(self) -> Exits
        ensures { exits_tree result ≡ statements.elsewhere (exits_tree self) }
    {
        Exits {
            next: self.next.settled(),
            on_break: self.on_break.settled(),
            on_continue: self.on_continue.settled(),
        }
    }

    /// Those of a part of a switch, which has these: a break goes behind the switch.
    pub fn in_switch(self) -> Exits
        ensures { exits_tree result ≡ statements.in_switch (exits_tree self) }
    {
        Exits {
            on_break: self.next,
            ..self
        }
    }

    /// Those of a part behind which this place comes.
    pub fn before(self, place: u32) -> Exits
        ensures { exits_tree result ≡ statements.before place (exits_tree self) }
    {
        Exits {
            next: Exit::Falls(place),
            on_break: self.on_break.settled(),
            on_continue: self.on_continue.settled(),
        }
    }
}

impl Falls {
    /// Those of a part of a switch.
    pub fn in_switch(self) -> Falls
        ensures { falls_tree result ≡ statements.in_switch_falls (falls_tree self) }
    {
        Falls {
            on_break: self.next,
            ..self
        }
    }

    /// Whether the exit that is a way comes next.
    pub fn to(self, w: Way) -> bool
        ensures { result ≡ statements.falls_to (way_tree w) (falls_tree self) }
    {
        match w {
            Way::Next => self.next,
            Way::Break => self.on_break,
            Way::Continue => self.on_continue,
        }
    }
}

/// Those of a part behind which another stands.
pub fn next_falls() -> Falls
    ensures { falls_tree result ≡ statements.next_falls }
{
    Falls {
        next: true,
        on_break: false,
        on_continue: false,
    }
}

/// Those of a part that stands elsewhere.
pub fn none_falls() -> Falls
    ensures { falls_tree result ≡ statements.none_falls }
{
    Falls {
        next: false,
        on_break: false,
        on_continue: false,
    }
}

/// Those of the body of a loop, behind which the step stands.
pub fn body_falls() -> Falls
    ensures { falls_tree result ≡ statements.body_falls }
{
    Falls {
        next: true,
        on_break: false,
        on_continue: true,
    }
}

/// Those of the last part of a loop, from which it goes back.
pub fn last_falls(behind: bool) -> Falls
    ensures { falls_tree result ≡ statements.last_falls behind }
{
    Falls {
        next: false,
        on_break: behind,
        on_continue: false,
    }
}

/// Those of the body of a loop: the step stands behind it.
pub fn body_exits(again: u32, behind: Exit) -> Exits
    ensures { exits_tree result ≡ statements.body_exits again (exit_tree behind) }
{
    Exits {
        next: Exit::Falls(again),
        on_break: behind.settled(),
        on_continue: Exit::Falls(again),
    }
}

/// Those of what stands before the test of a body, whose step is there.
pub fn front_exits(next: Exit, again: u32, behind: Exit) -> Exits
    ensures { exits_tree result ≡ statements.front_exits (exit_tree next) again (exit_tree behind) }
{
    Exits {
        next,
        on_break: behind.settled(),
        on_continue: Exit::Goes(again),
    }
}

/// Those of a step behind which the loop goes on.
pub fn step_exits(next: Exit, behind: Exit) -> Exits
    ensures { exits_tree result ≡ statements.step_exits (exit_tree next) (exit_tree behind) }
{
    Exits {
        next,
        on_break: behind.settled(),
        on_continue: next.settled(),
    }
}

/// Those of the last part of a loop, from which it goes back there.
pub fn last_exits(back: u32, behind: Exit) -> Exits
    ensures { exits_tree result ≡ statements.last_exits back (exit_tree behind) }
{
    Exits {
        next: Exit::Goes(back),
        on_break: behind,
        on_continue: Exit::Goes(back),
    }
}
