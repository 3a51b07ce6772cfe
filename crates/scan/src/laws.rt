// The laws of every scan network, each on a function.
ghost use Rattle.scan.specs.Path.{PathTakesOpenDoorways};
ghost use Rattle.scan.specs.Laws.{WhatIsPutIsShown, SoundPathIsAQueue, PassReadsAndWrites, CallsChangeOnlyTheirPart};

pub fn path_takes_open_doorways()
    ensures { PathTakesOpenDoorways }
{}

pub fn what_is_put_is_shown()
    ensures { WhatIsPutIsShown }
{}

pub fn sound_path_is_a_queue()
    ensures { SoundPathIsAQueue }
{}

pub fn pass_reads_and_writes()
    ensures { PassReadsAndWrites }
{}

pub fn calls_change_only_their_part()
    ensures { CallsChangeOnlyTheirPart }
{}
