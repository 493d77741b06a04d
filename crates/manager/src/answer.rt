// What an accepted call answers.
ghost use Rattle.std.specs.Prelude.{◌≡◌, None};

use rounds::Outcome;
use rows::Posts;
use stores::View;

#[derive(Clone, Copy)]
pub struct Answer {
    // The messages to be posted, in order.
    pub posts: Posts,
    // Where a round ended: how, and the view that it settled on, the pair that its decision gives (a rule of the project).
    pub ended: Option<(Outcome, Option<View>)>,
}

impl Answer {
    // Nothing is posted, and no round ended.
    pub fn quiet() -> Answer
        ensures { result ≡ record { posts = Posts.Nothing; ended = None } }
    {
        Answer {
            posts: Posts::Nothing,
            ended: None,
        }
    }
}
