//! What holds of replies.
ghost use Rattle.std.specs.Prelude.{ℕ, ◌≡◌, map};
ghost use Rattle.data_port.specs.{Common.{Durable, IsDurable, IsSeal, Seal}, Reply.{AgreeOn, answers_in, reply_to}};
ghost use Rattle.data_port.specs.{Items.{content}, Requests.{IsRequest, codes_of}, declared.request.Request.{Request}};

/// Two stores that agree on what the items of a request speak of give the same reply.
pub fn replies_speak_of_their_items()
    ensures { (request : Request) (one other : Durable) (seal another : Seal)
        → AgreeOn one seal other another request → reply_to one seal request ≡ reply_to other another request }
{}

/// The codes of its request and the content of each item can be read back from the bytes of a reply.
pub fn replies_are_read_back()
    ensures { (request : Request) (durable : Durable) (seal : Seal)
        → IsRequest request → IsDurable durable → IsSeal seal → answers_in (reply_to durable seal request)
        ≡ map (λ (code : ℕ). (code, content durable seal code)) (codes_of request) }
{}
