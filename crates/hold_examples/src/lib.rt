// No code: specs/ has computed examples of how long a record is held, with a tick each millisecond, apart from `rules` for their time.

#![tactic(auto)]
