// Two RBG3 and others on a source whose start-up alarms. Each call in words, and behind it the code, the two numbers and the bytes of its reply, all computed by an
// independent implementation.
pub(crate) const PLAN: &str = "version = 1
opening = \"none\"
[[source]]
samples = \"s0\"
num = 8
den = 1
rct = 3
apt = 20
startup = 1024
conditioner = \"df-aes-256\"
[[node]]
kind = \"rbg2\"
drbg = \"hmac-sha-256\"
interval = 1
source = 0
[[node]]
kind = \"rbg3-rs\"
drbg = \"ctr-aes-128\"
interval = 2
source = 0
[[node]]
kind = \"child\"
drbg = \"ctr-aes-128\"
interval = 1
parent = 1
[[node]]
kind = \"rbg1\"
drbg = \"ctr-aes-192\"
interval = 2
seed = \"seed3\"
[[node]]
kind = \"child\"
drbg = \"ctr-aes-192\"
interval = 1
parent = 3
";

pub(crate) const CALLS: &str = "generate 4 0
4 4 0 -
status 0
0 0 0 00000000000000000000000000000000000000000000000000
generate 0 40 string c9
4 0 0 -
reseed 0
4 0 0 -
generate 3 1 string db0e5b3c742435e726c26e88ef7dfcf3
4 3 0 -
instantiate 1
11 0 0 -
generate 0 64 pr strength 128
4 0 0 -
generate 0 15 pr
4 0 0 -
generate 3 1 pr strength 257 string 2114986fc7b2179df6f266e87dac60774c233c8c52ffd3f6dce5714b497afeed2c
4 3 0 -
generate 2 65 string 75f0d2d9866f352d5b03e41d755da070
4 2 0 -
generate 1 31 strength 128
4 1 0 -
start 1
1 1 1 -
generate 4 32 string 7f
4 4 0 -
generate 0 15 pr string ee
4 0 0 -
generate 0 64
4 0 0 -
status 2
0 0 0 00000000000000000000000000000000000000000000000000
generate 5 40
1 5 5 -
generate 1 15 strength 257
4 1 0 -
generate 0 17
4 0 0 -
start 0
13 1022 1 -
generate 0 16 pr strength 128
4 0 0 -
generate 0 65
4 0 0 -
generate 0 15 pr
4 0 0 -
instantiate 2
4 1 0 -
generate 3 40
4 3 0 -
status 3
0 0 0 00000000000000000000000000000000000000000000000000
instantiate 2
4 1 0 -
status 1
0 0 0 00000000000000000000000000000000000000000000000000
generate 3 32 pr
4 3 0 -
generate 2 40
4 2 0 -
reseed 4 string 23a8dc4434238e869a7b9f5cd97486c19b345ca4ad7a7b6384935f6ade105abba3
4 4 0 -
generate 0 65
4 0 0 -
generate 3 32 string ff4562ef9c86a9ee02cad3fd68db616d4d8817b3d4b68a440a27c59e1d54bb2eff
4 3 0 -
instantiate 2 strength 128 string 3c0f5dbe1aa26a83ce8b70a1cb87794f2c885d8ef7f7444f8bf2dea2bc8169b407
4 1 0 -
generate 1 40
4 1 0 -
generate 3 17
4 3 0 -
generate 4 33 pr string 3c14c75ab5c447f1026bb051c81c21d56b7f1a72a415a9f9205488c8ecae62fb8b
4 4 0 -
reseed 3 pr
4 3 0 -
instantiate 0
11 1 1022 -
generate 3 32
4 3 0 -
generate 3 15 string ce800f30e52ee24e13f6fac35e33c127
4 3 0 -
generate 1 15 string 05
4 1 0 -
instantiate 3
0 0 0 -
instantiate 1 strength 128
11 1 1022 -
instantiate 2 strength 128 string 98
4 1 0 -
generate 0 32
4 0 0 -
generate 2 40
4 2 0 -
reseed 2
4 2 0 -
generate 5 31 pr string d9
1 5 5 -
status 2
0 0 0 00000000000000000000000000000000000000000000000000
generate 3 65 strength 256 string 5a
5 256 192 -
generate 4 40 strength 257
4 4 0 -
generate 3 32
0 0 0 e1e49b01e6528d075fb6afc059ad0e6cf37595d7bd280f32046f64e473f37b42
reseed 1 pr string 26f2c55786364a74bc02b72411871a09
4 1 0 -
generate 2 17 strength 256
4 2 0 -
generate 0 15 string 738ab430cbcd7cd0f1e42e9c09818a775aab7b9969e019160dccae337a81fff1a2
4 0 0 -
generate 2 0 strength 257
4 2 0 -
generate 0 16 pr string dabdbd85a2b108b790e8df804cc5d9d2
4 0 0 -
generate 3 40 pr strength 192
7 3 0 -
status 0
0 0 0 00000000000000000000000000000000000000000000000000
generate 0 1 strength 192
4 0 0 -
generate 1 65
4 1 0 -
generate 0 40 pr
4 0 0 -
status 1
0 0 0 00000000000000000000000000000000000000000000000000
generate 1 1
4 1 0 -
generate 4 40 pr string 8f
4 4 0 -
generate 0 64
4 0 0 -
generate 4 17
4 4 0 -
generate 2 17 pr strength 192
4 2 0 -
generate 2 15
4 2 0 -
generate 2 33 strength 128
4 2 0 -
instantiate 0 strength 128
11 1 1022 -
generate 2 32 pr
4 2 0 -
generate 1 64
4 1 0 -
status 4
0 0 0 00000000000000000000000000000000000000000000000000
generate 1 64
4 1 0 -
generate 1 1
4 1 0 -
generate 2 65 string ed
4 2 0 -
generate 5 16 strength 257
1 5 5 -
start 0
0 0 0 -
generate 0 64 string 82cb570504c118baa1b87f50b1ff3bcff93bb254b3e8361df45eb7686d0e4d31ba
4 0 0 -
status 2
0 0 0 00000000000000000000000000000000000000000000000000
status 0
0 0 0 00000000000000000000000000000000000000000000000000
generate 4 40
4 4 0 -
generate 2 17 string f8
4 2 0 -
reseed 2 string ef74581dc44c4859dab657e1bd397c22
4 2 0 -
instantiate 1 strength 256 string bc728ba7cfd3abec4b9e037860a15373b604d9973fb77bddff4ef3457fe93f8daf
5 256 128 -
generate 4 32
4 4 0 -
generate 1 64 strength 257
4 1 0 -
generate 4 64 string 54
4 4 0 -
generate 3 16 string 3938b1e2485b64f4a7bdce8f3b9d870bdc084406db6acd879572a8dba528b23d8a
0 0 0 0e704c408f9786e032c9484466dd758c
generate 3 32 pr
7 3 0 -
reseed 1
4 1 0 -
instantiate 3 strength 128
3 3 0 -
reseed 1
4 1 0 -
generate 4 40 pr strength 128
4 4 0 -
generate 4 16
4 4 0 -
generate 2 0
4 2 0 -
status 0
0 0 0 00000000000000000000000000000000000000000000000000
generate 1 15 pr strength 192
4 1 0 -
instantiate 1 strength 128
0 0 0 -
instantiate 4
8 3 3 -
generate 2 15 strength 128
4 2 0 -
generate 2 32 string 83c33df740dc6402293db7f25e256cdbeeff54f15cb83c15167f918465cc3410b4
4 2 0 -
generate 0 31 string 3c
4 0 0 -
generate 2 64
4 2 0 -
generate 4 33
4 4 0 -
status 1
0 0 0 01000000000000000100000000000000010000000000000000
instantiate 4 string 5d0597c2dc1ea6d4188ea1ff3ee177b3db23b6f687cad5b5a422f3b9b23bb080c3
8 3 3 -
generate 4 17 pr
4 4 0 -
instantiate 1 strength 128
3 1 0 -
reseed 4 pr
4 4 0 -
generate 2 40 strength 128
4 2 0 -
instantiate 1 strength 256 string 1be59a0e8c9c30d7818f67ac616bd02ac945c0fca13039bb595606e9b6d5a68c27
3 1 0 -
instantiate 1
3 1 0 -
generate 2 17 pr
4 2 0 -
generate 2 33 string ef
4 2 0 -
generate 2 0
4 2 0 -
generate 0 15
4 0 0 -
instantiate 4 string 4a
8 3 3 -
generate 0 17 strength 256
4 0 0 -
reseed 2 pr
4 2 0 -
generate 5 64 strength 192
1 5 5 -
generate 4 17 pr string 1c4b15959c4bb8e48b0a6a24f211c35f990b83e3a2e01dd2fe6ad904edbeb6635c
4 4 0 -
instantiate 0 strength 128 string 954f5b46069e9164a808c52d8765615a
0 0 0 -
reseed 3 pr
6 3 0 -
instantiate 3 strength 256
3 3 0 -
reseed 2
4 2 0 -
reseed 4
4 4 0 -
generate 1 40 pr string 1a
13 2302 1 -
status 3
0 0 0 01000000000000000300000000000000010000000000000002
generate 4 0 strength 128 string a993f5d3b61f217e5130a5ac68663aa8553a371e1350ce745433d7390538b9a4e1
4 4 0 -
generate 0 1
0 0 0 f3
status 0
0 0 0 01000000000000000200000000000000010000000000000001
status 2
0 0 0 00000000000000000000000000000000000000000000000000
status 5
1 5 5 -
instantiate 4
8 3 3 -
reseed 0
11 1 2302 -
generate 2 16
4 2 0 -
instantiate 3 strength 128
3 3 0 -
status 0
0 0 0 01000000000000000200000000000000010000000000000001
generate 4 0 pr
4 4 0 -
generate 2 0
4 2 0 -
generate 2 31 string 1a2dda4650dd266b53a40c0799e20c5e
4 2 0 -
generate 3 64 string 46
8 3 3 -
generate 1 16 string b6
11 1 2302 -
instantiate 0 string d4841a165c43baeebc5f5050ac0234b2
3 0 0 -
generate 4 31
4 4 0 -
generate 2 40 strength 257
4 2 0 -
generate 4 64
4 4 0 -
reseed 0
11 1 2302 -
instantiate 2
11 1 2302 -
start 0
14 1024 0 -
status 4
0 0 0 00000000000000000000000000000000000000000000000000
generate 1 0 pr strength 256 string e655dcf249d3f79ad76b682a5129010f7c2f99c635606dfe0bcd854d7a513a5030
5 256 128 -
instantiate 1 string e3
3 1 0 -
generate 0 17 strength 192
11 0 0 -
reseed 0
11 0 0 -
generate 2 17 pr
4 2 0 -
generate 0 16
11 0 0 -";

// What Status says at the end, and the counts of the sources.
pub(crate) const COUNTS: &str = "node 0: live 1 counter 2 seeds 1 gives 1
node 1: live 1 counter 1 seeds 1 gives 0
node 2: live 0 counter 0 seeds 0 gives 0
node 3: live 1 counter 3 seeds 1 gives 2
node 4: live 0 counter 0 seeds 0 gives 0
source 0: taken 2303 blocks 10
";
