// Laws of the definitions, for those who reason about what `next` returns. They do nothing when they run.
ghost use Rattle.keep_wire.specs.Messages.{AreDetermined, IsSomethingNext};
ghost use Rattle.keep_wire.specs.Requests.{request_grammar, request_of};
ghost use Rattle.keep_wire.specs.Replies.{response_grammar, response_of};
ghost use Rattle.keep_wire.specs.Sessions.{AreRequestsDetermined, AreRequestsThere};

/// Known bytes have one next request or error, and one list of requests with its end.
pub fn requests_determined()
    ensures next { AreDetermined request_grammar request_of }
    ensures whole { AreRequestsDetermined }
    ensures next_there { IsSomethingNext request_grammar request_of }
    ensures whole_there { AreRequestsThere }
{}

/// Known bytes have one next response or error.
pub fn responses_determined()
    ensures next { AreDetermined response_grammar response_of }
    ensures next_there { IsSomethingNext response_grammar response_of }
{}
