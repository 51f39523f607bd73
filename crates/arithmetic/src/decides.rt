// What a yes-or-no answer says: the definition `Decides`, for every crate. Its laws stand in `proofs/Deciding.antt`. There is no code here.
