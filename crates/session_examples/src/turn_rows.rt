//! Moves of only some cores on the recording of two cores, worked out by hand. The timeline takes the cores in the
//! order 0 1 0 0 1 1 0 1 0. Places are told by how far the cores have come, in digits.

/// Core 1 alone goes on, and takes core 0 with it only where it loads; then core 0.
pub const ONE_CORE: &str = "\
> vCont;c:2
< T05thread:2;replaylog:end;
> qThreadExtraInfo,1
< 726574697265642033206f662035
> qThreadExtraInfo,2
< 726574697265642034206f6620342c2065786974
> vCont;c:2
< T05thread:2;replaylog:end;
> Hg1
< OK
> vCont;c:1
< T05thread:1;replaylog:end;
> qThreadExtraInfo,1
< 726574697265642035206f6620352c2065786974";

/// A breakpoint of a core that isn't resumed stops nothing.
pub const UNHEARD: &str = "\
> Z0,8,4
< OK
> Z0,18,4
< OK
> vCont;c:2
< T05thread:2;swbreak:;
> qThreadExtraInfo,1
< 726574697265642033206f6620352c20776169747320666f7220313a33
> qThreadExtraInfo,2
< 726574697265642032206f662034
> vCont;c:2
< T05thread:2;swbreak:;
> z0,18,4
< OK
> vCont;C05:2
< T05thread:2;replaylog:end;";

/// A watched access of a core that isn't resumed is told of the one whose turn it is.
pub const TOLD: &str = "\
> Z2,40,4
< OK
> vCont;c:2
< T05thread:2;watch:40;
> qThreadExtraInfo,1
< 726574697265642032206f662035
> qThreadExtraInfo,2
< 726574697265642031206f6620342c20776169747320666f7220303a33
> z2,40,4
< OK
> vCont;s:2
< T05thread:2;
> Z2,40,4
< OK
> vCont;c:2
< T05thread:2;watch:40;
> qThreadExtraInfo,2
< 726574697265642032206f662034
> z2,40,4
< OK
> vCont;c:1
< T05thread:1;replaylog:end;
> qThreadExtraInfo,2
< 726574697265642033206f662034";

/// Core 1 alone goes back, and takes core 0 back with it where it gives up its store; then core 0.
pub const BACK_ALONE: &str = "\
> vCont;c
< T05thread:1;replaylog:end;
> Hc2
< OK
> bc
< T05thread:2;replaylog:begin;
> qThreadExtraInfo,1
< 726574697265642033206f6620352c20776169747320666f7220313a33
> qThreadExtraInfo,2
< 726574697265642030206f662034
> vCont;c
< T05thread:2;replaylog:end;
> Z0,c,4
< OK
> Z0,18,4
< OK
> bc
< T05thread:2;swbreak:;
> qThreadExtraInfo,1
< 726574697265642033206f6620352c20776169747320666f7220313a33
> qThreadExtraInfo,2
< 726574697265642032206f662034
> Hc1
< OK
> bc
< T05thread:1;replaylog:begin;
> qThreadExtraInfo,2
< 726574697265642031206f6620342c20776169747320666f7220303a33";

/// A step back stops where it takes another core back over its access or to its breakpoint.
pub const OTHERS_BACK: &str = "\
> vCont;c
< T05thread:1;replaylog:end;
> Z0,c,4
< OK
> bs
< T05thread:1;
> bs
< T05thread:1;swbreak:;
> qThreadExtraInfo,2
< 726574697265642034206f6620342c2065786974
> Z2,40,4
< OK
> bs
< T05thread:2;watch:40;
> qThreadExtraInfo,1
< 726574697265642033206f662035
> qThreadExtraInfo,2
< 726574697265642033206f662034
> z2,40,4
< OK
> Z0,18,4
< OK
> Hg1
< OK
> bs
< T05thread:2;swbreak:;
> qThreadExtraInfo,1
< 726574697265642033206f6620352c20776169747320666f7220313a33
> Hc1
< OK
> bs
< T05thread:1;
> qThreadExtraInfo,1
< 726574697265642032206f662035
> qThreadExtraInfo,2
< 726574697265642031206f6620342c20776169747320666f7220303a33";

/// A watched access of a core that isn't resumed is told of the one that goes back.
pub const UNASKED: &str = "\
> vCont;c
< T05thread:1;replaylog:end;
> Z2,40,4
< OK
> Hc1
< OK
> bc
< T05thread:1;watch:40;
> qThreadExtraInfo,1
< 726574697265642033206f662035
> qThreadExtraInfo,2
< 726574697265642033206f662034";

/// Core 1 leads on, core 0 leads back, and all go on.
pub const LEADS: &str = "\
> qRcmd,6c6561642031
< 6c65616420310a
> vCont;c
< T05thread:1;replaylog:end;
> qThreadExtraInfo,1
< 726574697265642033206f662035
> qThreadExtraInfo,2
< 726574697265642034206f6620342c2065786974
> qRcmd,6c6561642030
< 6c65616420300a
> bc
< T05thread:1;replaylog:begin;
> qThreadExtraInfo,2
< 726574697265642031206f6620342c20776169747320666f7220303a33
> qRcmd,6c65616420616c6c
< 6c65616420616c6c0a
> vCont;c
< T05thread:1;replaylog:end;
> qThreadExtraInfo,1
< 726574697265642035206f6620352c2065786974";

/// Core 0 steps on while it stands below c, and then up to the end, where core 1 comes along; with a range that it
/// isn't in it takes one step. Without a range or a thread the packet is refused.
pub const RANGES: &str = "\
> vCont?
< vCont;c;C;s;S;r
> vCont;r8,c:1;c
< T05thread:1;
> qThreadExtraInfo,1
< 726574697265642031206f662035
> vCont;r0,c:1;c
< T05thread:1;
> qThreadExtraInfo,1
< 726574697265642033206f6620352c20776169747320666f7220313a33
> vCont;r0:1
< E01
> vCont;r0,4
< E01
> vCont;rx,4:1
< E01
> vCont;r0,100:3
< E01
> vCont;r0,100:1;c
< T05thread:1;
> qThreadExtraInfo,1
< 726574697265642035206f6620352c2065786974
> vCont;r0,100:1;c
< T05thread:1;replaylog:end;";

/// Within the range it stops at a breakpoint, and before an access that is watched; core 1 stops behind its load.
pub const RANGE_STOPS: &str = "\
> Z0,4,4
< OK
> vCont;r0,100:1;c
< T05thread:1;
> qThreadExtraInfo,1
< 726574697265642031206f662035
> Z2,40,4
< OK
> vCont;r0,100:1;c
< T05thread:1;watch:40;
> qThreadExtraInfo,1
< 726574697265642032206f662035
> z2,40,4
< OK
> vCont;r0,18:2
< T05thread:2;
> qThreadExtraInfo,1
< 726574697265642033206f6620352c20776169747320666f7220313a33
> qThreadExtraInfo,2
< 726574697265642032206f662034";

/// The program runs again from the beginning, whatever stands in the way; points and names stay.
pub const RUNS_AGAIN: &str = "\
> !
< OK
> vCont;c
< T05thread:1;replaylog:end;
> Z0,4,4
< OK
> qRcmd,6d61726b20656e64
< 637574203520340a
> Hg2
< OK
> vRun;
< T05thread:1;
> qC
< QC1
> qThreadExtraInfo,1
< 726574697265642030206f662035
> qThreadExtraInfo,2
< 726574697265642030206f662034
> vCont;c
< T05thread:1;swbreak:;
> qRcmd,676f746f20656e64
< 637574203520340a";
