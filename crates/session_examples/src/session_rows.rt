//! Packets on the recording of two cores, with their answers, worked out by hand. Places are told by how far the cores
//! have come, in digits: `retired 5 of 5` is `726574697265642035206f662035`.

/// Steps, to the end and back. Core 1 takes core 0 with it where it loads.
pub const STEPS: &str = "\
> vCont;s:2;c
< T05thread:2;
> qThreadExtraInfo,2
< 726574697265642031206f6620342c20776169747320666f7220303a33
> vCont;s:2;c
< T05thread:2;
> qThreadExtraInfo,1
< 726574697265642033206f6620352c20776169747320666f7220313a33
> qThreadExtraInfo,2
< 726574697265642032206f662034
> p7
< 07000000
> p20
< 18000000
> m40,4
< 07000000
> bs
< T05thread:2;
> qThreadExtraInfo,1
< 726574697265642033206f6620352c20776169747320666f7220313a33
> p7
< 00000000
> vCont;c
< T05thread:2;replaylog:end;
> qThreadExtraInfo,1
< 726574697265642035206f6620352c2065786974
> m40,4
< 01000000
> vCont;s:1;c
< T05thread:1;replaylog:end;
> bc
< T05thread:1;replaylog:begin;
> m40,4
< 00000000
> bs
< T05thread:1;replaylog:begin;";

/// A program that ends at an EBREAK, by its pc and by how many instructions it has retired.
pub const BREAK: &str = "\
> vCont;s:1
< T05thread:1;
> p20
< 04000000
> p21
< 01000000
> vCont;c
< T05thread:1;
> p20
< 04000000
> p21
< 02000000
> bs
< T05thread:1;
> p20
< 04000000
> p21
< 01000000";

/// Breakpoints of both kinds.
pub const BREAKS: &str = "\
> Z0,8,4
< OK
> vCont;c
< T05thread:1;swbreak:;
> qThreadExtraInfo,1
< 726574697265642032206f662035
> qThreadExtraInfo,2
< 726574697265642031206f6620342c20776169747320666f7220303a33
> vCont;s:2
< T05thread:2;
> qThreadExtraInfo,1
< 726574697265642033206f6620352c20776169747320666f7220313a33
> bs
< T05thread:2;
> Hc1
< OK
> bs
< T05thread:1;swbreak:;
> Hc0
< OK
> z0,8,4
< OK
> Z1,18,4
< OK
> vCont;c
< T05thread:2;swbreak:;
> z1,18,4
< OK
> vCont;c
< T05thread:2;replaylog:end;
> Z1,18,4
< OK
> bc
< T05thread:2;swbreak:;";

/// Ranges of a word that both cores store to: core 0 stores 7, and core 1 then 1.
pub const WATCHES: &str = "\
> Z2,42,1
< OK
> vCont;c
< T05thread:1;watch:42;
> m40,4
< 00000000
> z2,42,1
< OK
> vCont;s:1;c
< T05thread:1;
> m40,4
< 07000000
> Z3,40,4
< OK
> vCont;c
< T05thread:2;rwatch:40;
> z3,40,4
< OK
> Z4,44,4
< OK
> vCont;c
< T05thread:2;replaylog:end;
> Z2,40,4
< OK
> bc
< T05thread:2;watch:40;
> m40,4
< 01000000
> bs
< T05thread:2;watch:40;
> z2,40,4
< OK
> bs
< T05thread:2;
> m40,4
< 07000000";

/// Packets that move nothing, and ones that are refused.
pub const STILL: &str = "\
> m80,4
< E01
> m7e,8
< 0000
> m0,0
< E01
> p23
< E01
> p22
< 05000000
> pffffffffffffffff
< E01
> Hg3
< E01
> Hgx
< E01
> Hc3
< E01
> T2
< OK
> T3
< E01
> T-1
< E01
> G00
< E01
> P0=1
< E01
> M0,1:00
< E01
> X0,0:
< E01
> vCont;s:3
< E01
> vCont;r0,4
< E01
> vCont;
< E01
> Z0,8
< E01
> Z5,8,4
<
> z2,40,4
< OK
> qThreadExtraInfo,3
< E01
> qXfer:features:read:other.xml:0,10
< E00
> qXfer:features:read:target.xml:0
< E01
> qXfer:threads:read::ffff,10
< l
> qXfer:threads:read::0,5
< m<?xml
> qC
< QC1
> ?
< T05thread:1;
> qfThreadInfo
< m1,2
> qsThreadInfo
< l
> qTStatus
<
>
<
> s
<
> vAttach;a
<";
