//! Who hears of clients that are served.

ghost use Rattle.std.specs.Prelude.{◌≡◌, ◌∷◌, [], MatchResult};
ghost use Rattle.ws_serving.specs.News.{HasTakenNews};

use crate::client_end::ClientEnd;

/// What is told of clients.
#[derive(Clone, Copy, PartialEq, Eq)]
pub enum News {
    /// The connection of the client of this number has ended so.
    Ended(u64, ClientEnd),
    /// No client can be taken for now, and some are there. It is told once.
    Full,
}

/// It takes what is told of clients.
pub trait NewsSink {
    ghost use Rattle.std.specs.Prelude.{List};
    ghost use Rattle.ws_serving.specs.declared.news_sink.News.{News};

    /// Why it doesn't take it.
    type Fault: Drop;

    /// From the first state to the second one it took just this.
    ghost heard: { Self → Self → List News → Type 0 };

    /// Between these states it didn't take this, for this reason.
    ghost refused: { Self → Self → News → Self.Fault → Type 0 };

    /// Takes what is told.
    fn put(&mut self, news: News) -> Result<(), Self::Fault>
        ensures { MatchResult result
            (λ done. HasTakenNews heard self.old self.new (news ∷ []))
            (λ why. refused self.old self.new news why) };
}
