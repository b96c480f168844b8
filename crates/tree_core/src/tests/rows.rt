// Small plans, and calls on trees of them: a call in words and its reply in turns, the code, the two numbers, and the bytes in hexadecimal.

// A source of counting samples, of 8 bits each.
pub(crate) const SOURCE: &str = "version = 1
opening = \"none\"
[[source]]
samples = \"ramp\"
num = 8
den = 1
rct = 4
apt = 257
[[node]]
kind = \"rbg2\"
drbg = \"hmac-sha-256\"
interval = 2
source = 0
";

// The same, and a child of its node.
pub(crate) const PAIR: &str = "version = 1
opening = \"none\"
[[source]]
samples = \"ramp\"
num = 8
den = 1
rct = 4
apt = 257
[[node]]
kind = \"rbg2\"
drbg = \"hmac-sha-256\"
interval = 2
source = 0
[[node]]
kind = \"child\"
drbg = \"ctr-aes-256\"
interval = 1
parent = 0
";

// Both RBG3s, an RBG1 and a child of it, all of them opened.
pub(crate) const FOUR: &str = "version = 1
[[source]]
samples = \"ramp\"
num = 8
den = 1
rct = 4
apt = 257
[[node]]
kind = \"rbg3-xor\"
drbg = \"hmac-sha-256\"
interval = 1000
source = 0
[[node]]
kind = \"rbg3-rs\"
drbg = \"hmac-sha-256\"
interval = 1000
source = 0
[[node]]
kind = \"rbg1\"
drbg = \"hmac-sha-256\"
interval = 2
seed = \"s48\"
[[node]]
kind = \"child\"
drbg = \"ctr-aes-128\"
interval = 10
parent = 2
";

// A call in words and its reply in turns: the code, the two numbers, and the bytes in hexadecimal.

// A child reseeds by its parent, which its source reseeds.
pub(crate) const PAIRED: &str = "start 0
0 0 0 -
instantiate 0
0 0 0 -
instantiate 1
0 0 0 -
generate 1 32
0 0 0 fd5a91a10f7a9a53efa8796b59e483449e2d4cb101fd06b240b1c6dfac9743f9
generate 1 32
0 0 0 fcdfd76d1470892439a9c61214493fd2112c9372c37cc1ed35a39d207e24cfca
generate 1 32
0 0 0 6734ded4505784a2ff810debed5055d17e263f05ba6fb713aa2c625e0b04583a
status 0
0 0 0 01000000000000000200000000000000020000000000000003
status 1
0 0 0 01000000000000000200000000000000030000000000000003";

// Behind these, additional input goes into the child's reseed alone.
pub(crate) const STRING: &str = "generate 1 32 pr string aa
0 0 0 ff370dba34493b3060f1dff7bad6cc349e97778903c514252eea0674210fbd2b
generate 1 32
0 0 0 d3148b03a2e5012eefe078a225cd34e369763c0b58a6d1266936845741dd5900
status 0
0 0 0 01000000000000000300000000000000030000000000000005
status 1
0 0 0 01000000000000000200000000000000050000000000000005";

// Behind these, where the source alarms at its sample 1153.
pub(crate) const ALARM: &str = "generate 1 32 pr
13 1153 1 -
status 0
0 0 0 01000000000000000200000000000000020000000000000003
status 1
0 0 0 01000000000000000200000000000000030000000000000003
generate 1 32
0 0 0 c5e2dea6403ebf72687b382a006edeb8fefff4ddbc476db57f55d6f2da8160f5
generate 1 32 pr
11 1 1153 -
start 0
0 0 0 -
generate 1 32 pr
0 0 0 20633ef860c185078ca908b48a0b4ff712edee5f6b5d80aef3514008e9665eb6
status 0
0 0 0 01000000000000000200000000000000030000000000000005
status 1
0 0 0 01000000000000000200000000000000050000000000000005";

// Behind these, the child is instantiated again.
pub(crate) const AGAIN: &str = "uninstantiate 1
0 0 0 -
instantiate 1
0 0 0 -
status 0
0 0 0 01000000000000000300000000000000020000000000000004";

// Behind these, the parent is gone when the child is due.
pub(crate) const ORPHAN: &str = "uninstantiate 0
0 0 0 -
generate 1 32
4 0 0 -
generate 1 32
4 0 0 -
status 1
0 0 0 01000000000000000200000000000000030000000000000003";

// The source alarms in its start-up.
pub(crate) const START_UP: &str = "instantiate 0
11 0 0 -
start 0
13 1023 1 -
instantiate 0
11 1 1023 -";

// The source has 1,103 samples.
pub(crate) const ENDED: &str = "start 0
0 0 0 -
instantiate 0
14 1 0 -
status 0
0 0 0 00000000000000000000000000000000000000000000000000";

// The second read fails.
pub(crate) const FAILED: &str = "start 0
0 0 0 -
instantiate 0
12 1 0 -
instantiate 0
0 0 0 -";

// A node on its source.
pub(crate) const ONE: &str = "reseed 0
4 0 0 -
instantiate 0 strength 257
5 257 256 -
generate 1 32
1 1 1 -
start 1
1 1 1 -
start 0
0 0 0 -
instantiate 0
0 0 0 -
generate 0 32
0 0 0 db6c2b782142d22684fec1ca226d31240d8e70c98d0d3929a2e02c7bf1b77f4d
generate 0 32
0 0 0 9c82d4fe2570d15a9318870b75cefc2bd403601330b0f1145241e0d5c03f1909
generate 0 32
0 0 0 8bc2302a823c2ce2836bf0a8a2fba00183bc0c8990f836057d465820e6a9b71f";

// RBG3s draw for each output; an RBG1 is seeded once.
pub(crate) const OUTPUTS: &str = "generate 0 40
0 0 0 04067e877dd5dce35a417b511365baa997b76d70f1a2c4e3b1bbb572d023c7d4af47f7e807699bb3
generate 1 40
0 0 0 38d3e73dd9342a93952ce3ead2d2f5a65a65043cf9bc0abac84ee6c70350c2c048351f9e47937642
generate 0 4097
2 4097 4096 -
generate 2 32
0 0 0 08767656d3e9669eb668d1e1f5b80d27bb1aee12ff719eeb83e3dce006718c16
generate 2 32
8 2 3 -
reseed 2
6 2 0 -
generate 3 16 strength 192 pr
5 192 128 -
generate 3 16 pr
7 2 0 -
reseed 3
8 2 3 -
instantiate 3
3 3 0 -
generate 9 16
1 9 4 -
status 2
0 0 0 01000000000000000300000000000000010000000000000002
uninstantiate 2
0 0 0 -
status 2
0 0 0 00000000000000000000000000000000010000000000000002
instantiate 2
6 2 0 -
generate 3 16
0 0 0 9228419119099a3cb89b850f4b8f8250
reseed 3
4 2 0 -";

// RBG3s asked for no bytes, and for some.
pub(crate) const NOTHING: &str = "generate 0 0
0 0 0 -
generate 1 0
0 0 0 -
status 0
0 0 0 01000000000000000200000000000000010000000000000001
status 1
0 0 0 01000000000000000200000000000000020000000000000001
generate 0 8
0 0 0 4adefcafae21a734
generate 1 8
0 0 0 8ce0878065528b99";

// The counts behind the calls of PAIRED, START_UP, ENDED, ONE and OUTPUTS.
pub(crate) const PAIRED_COUNTS: &str = "node 0: live 1 counter 2 seeds 2 gives 3
node 1: live 1 counter 2 seeds 3 gives 3
source 0: taken 1144 blocks 3
";

pub(crate) const START_UP_COUNTS: &str = "node 0: live 0 counter 0 seeds 0 gives 0
node 1: live 0 counter 0 seeds 0 gives 0
source 0: taken 1024 blocks 0
";

pub(crate) const ENDED_COUNTS: &str = "node 0: live 0 counter 0 seeds 0 gives 0
node 1: live 0 counter 0 seeds 0 gives 0
source 0: taken 1103 blocks 1
";

pub(crate) const ONE_COUNTS: &str = "node 0: live 1 counter 2 seeds 2 gives 3
source 0: taken 1144 blocks 3
";

pub(crate) const OUTPUTS_COUNTS: &str = "node 0: live 1 counter 2 seeds 1 gives 1
node 1: live 1 counter 2 seeds 3 gives 2
node 2: live 0 counter 0 seeds 1 gives 2
node 3: live 1 counter 2 seeds 1 gives 1
source 0: taken 1424 blocks 10
";
