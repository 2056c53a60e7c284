// The points of every item's area: of a local by paths, of a slot by its moves and its register's live pieces.
#![tactic(auto)]
