// All kinds of nodes over two sources with alarms. Each call in words, and behind it the code, the two numbers and the bytes of its reply, all computed by an
// independent implementation.
pub(crate) const PLAN: &str = "version = 1
opening = \"all\"
[[source]]
samples = \"s0\"
num = 7
den = 2
rct = 5
apt = 300
startup = 1024
conditioner = \"df-aes-256\"
[[source]]
samples = \"s1\"
num = 3
den = 1
rct = 6
apt = 60
startup = 1500
conditioner = \"hmac-sha-256\"
[[node]]
kind = \"rbg3-xor\"
drbg = \"ctr-aes-192\"
interval = 2
source = 0
[[node]]
kind = \"rbg3-rs\"
drbg = \"hmac-sha-384\"
interval = 4
source = 1
[[node]]
kind = \"rbg2\"
drbg = \"ctr-aes-128\"
interval = 2
source = 1
[[node]]
kind = \"rbg1\"
drbg = \"hmac-sha-256\"
interval = 6
seed = \"seed3\"
[[node]]
kind = \"child\"
drbg = \"ctr-aes-256\"
interval = 3
parent = 3
[[node]]
kind = \"child\"
drbg = \"ctr-aes-128\"
interval = 2
parent = 0
[[node]]
kind = \"child\"
drbg = \"hmac-sha-256\"
interval = 2
parent = 1
[[node]]
kind = \"child\"
drbg = \"ctr-aes-128\"
interval = 1
parent = 2
";

pub(crate) const CALLS: &str = "instantiate 5
3 5 0 -
generate 6 15
0 0 0 e6e3ed38718a27ba1680ea2113b8fc
instantiate 1 strength 128
3 1 0 -
instantiate 0 strength 256
3 0 0 -
instantiate 6
3 6 0 -
generate 0 64 pr
0 0 0 4a21ea1b4074d8c0346cb3728d5e00742b113a488d8f2c81327b61cbe17ccf5c3638d382c4e9cbb5621137efba918dfb0ba1dc2cbc1c12d6578b181be8f72846
generate 8 1 pr
1 8 8 -
reseed 6
0 0 0 -
generate 7 64 pr string 831bd164d87471bfd273171dcc06383042fa15af0ba853aaef6659dca043ba3a87
0 0 0 386943ced515f37973c45bec6dda19280d11ef7e4f93de75a79448cc18788d9352603107a592a65473ba414bc7c2f0adc18791601d2b4cfa5d1f90edd1be89a9
generate 6 0 strength 256
0 0 0 -
generate 3 15 pr
7 3 0 -
generate 1 64 string 040c3d64eff0bc74332300e285c910d7
0 0 0 2b1297996723716af529d188f39475a871c307a0f6dbed5dc3210d35433278edb16539de604dcb817bda38e6d180b9648388c6377c7d86d31cd52409aa136734
generate 4 33
0 0 0 a221092e5ea15c1e45e776628a1bf695de394d5dd7470afdf737e56e34c05a6e0f
instantiate 6 string bd
3 6 0 -
generate 2 16 string 2da525cd7d2a4716570e619aa292662b768d1898b12f91f69222776a32569fb808
0 0 0 2d03360fdee5e54175fb815b684e1cff
generate 3 65 pr
7 3 0 -
generate 2 32
0 0 0 f7a2fd3564bf1c4b4ea1cc6686355e9ac8a20bb867bd46e4316b36c3dcd55ecf
generate 1 32 string f95286c45d5b6b845f6d67d4d2fdee83
0 0 0 d6bffd1019c3d0d528c5d8c9f74e056b93f1267d556afca97bb63f4276bf9e05
generate 4 65 string 92f691b474338f4311b9fc0170b68306
0 0 0 269a381f75534043494f33c97313bed07dcad4d8c6111977354cc6d5c16d9345211bbabd06bdc0a5d932c8e67b0bfea3e986124402d47874b52d81b1d0d237582c
generate 3 40 strength 257
5 257 256 -
generate 1 40 pr strength 257
5 257 256 -
generate 3 31 strength 128 string c7
0 0 0 681e3dec4e18b59a14415ed884d5c22a47c763e025817b6350b0c3d279271c
status 7
0 0 0 01000000000000000200000000000000020000000000000001
generate 2 33 pr string e752d48d56bc2c49caaa9567c4f34132419a7e7dbea7a9ec1ce63e11c76f10ba45
0 0 0 8dc514fe51a9161f772da190027a3c607f60a32e72342cbcde9885c234e6069834
generate 3 32 pr string e8eaee0e79f5aa983b14e8340df55801
7 3 0 -
status 7
0 0 0 01000000000000000200000000000000020000000000000001
generate 6 33 pr strength 192 string 13
0 0 0 912e713f79831c63a13a7ebc3ae296997d1c23fece99174cd19ba3f2482e22a214
generate 6 64
0 0 0 4d9df9dee2dd146040853a9fccced03f9813ccfbe31d7556230a129e401dc421aa5994b31da435a6fdda12801df879d32cfc80955a3cda0ecb2d93a7f474bd3f
generate 1 33 pr strength 192
0 0 0 cbb696fc5a2ffef87d6577b2ef61953d91b6b91dc9a1ce90b4db1f059a99c11b35
instantiate 6 string f74c230359e9e7cc58d4bb00c8686d1373f945a57d83e7402b6aa400d76caba5e2
3 6 0 -
instantiate 7 string ac
3 7 0 -
generate 5 0 strength 192
5 192 128 -
status 4
0 0 0 01000000000000000300000000000000010000000000000002
generate 7 33 pr
0 0 0 117cb78acc4a260b66ca9f97bc9925e5f9019ac2a62acdf646fc4e8fe7febbf720
generate 8 16 strength 192
1 8 8 -
start 1
13 5005 1 -
status 3
0 0 0 01000000000000000300000000000000010000000000000002
generate 0 0
0 0 0 -
generate 1 40
11 1 5005 -
status 6
0 0 0 01000000000000000300000000000000030000000000000004
generate 6 17
11 1 5005 -
generate 2 64 pr strength 257
5 257 128 -
generate 2 1 pr
11 1 5005 -
generate 4 0
0 0 0 -
generate 3 40 strength 192
0 0 0 f06753cb1624795dbefe84156b00de94bff7deeff7bbe70e6bc47c324bb214f3aedac289b68ba444
generate 3 15 string 8f
0 0 0 d647dcd5a7c8d115675c4b9cd02cf5
generate 2 1 string 014eeb0f16318472e07fb7bd8f448cb498d19d3b0cce7d3cd7d834af580fc6a115
0 0 0 e5
generate 0 40 string 8c
0 0 0 1df70290bc90382fe7fa020c0ed36a5d2c7ebb1f53cdbfb97171fb3525935324ffd2cf07a15e2d6a
generate 0 64
0 0 0 8186f411438ded7b06fc9e68f43bedc2e64de6d8f9e54547c1b2e5d45ddcc32519c7d62a331caff9e2852f33bbfd24df7c61aee33c422ed2393ac7245fcb78f2
generate 0 40 strength 128 string 2acf774451afeabc150dc12acdb9f737438662e0b786a1f238177921611e71bff7
0 0 0 8da78f77e0c5543620c5324a771f38474dad9aa8f42c81874505c6c357ab7bcf3ceb8f21bc62bd39
generate 2 33 string a66198102ecee8ac271a009423d75cbc
11 1 5005 -
generate 6 16
11 1 5005 -
generate 3 40 string 8a
0 0 0 ea1283b3785fbd682de8fba086695900e25edd66324b6717f85025cdc5c344f00dc2c3739be58098
generate 6 40 pr strength 128
11 1 5005 -
generate 4 15 strength 256
0 0 0 897d26d5ad7d03ffd602061b97a1d6
instantiate 1 strength 256
3 1 0 -
generate 1 31 pr strength 192
11 1 5005 -
generate 0 64 string 59be75e24af9f6a7e416bfa213358ede038e2da7c78e12485a3cb5a596d0ee5a1d
0 0 0 c2d3418bdb2619d5aed73e5ca8fd8ac6e2543cbacba8725d135f928fc1e522964733a013e80e764fd4a7f4619c0dd381a5fa4142cb40b858ac80620d302efa28
generate 1 65 string 070366b80b8950f1d4480c6eaca9220d
11 1 5005 -
generate 5 0
0 0 0 -
generate 0 16 pr strength 256 string b8
5 256 192 -
instantiate 7
3 7 0 -
generate 3 32 pr strength 256
7 3 0 -
generate 7 16 pr strength 256
5 256 128 -
uninstantiate 0
0 0 0 -
status 5
0 0 0 01000000000000000200000000000000010000000000000001
start 0
0 0 0 -
generate 0 16 string 2968381e6403a4d647cf3725ebc3acd1ea7847dc6085ac7497d15b3922bc58b287
4 0 0 -
generate 8 65 string 16b121bb326c821401b20c99ec3c981c
1 8 8 -
instantiate 2
3 2 0 -
generate 2 17 strength 192 string de
5 192 128 -
generate 7 16 string 54
11 1 5005 -
generate 2 31 pr string c4
11 1 5005 -
generate 7 17
11 1 5005 -
generate 1 64
11 1 5005 -
status 2
0 0 0 01000000000000000300000000000000050000000000000007
instantiate 4 string 3b52ed94e9af770479c07a65a3ed0e38bab9cef80b3f735a0197a8a98d9d30ed1b
3 4 0 -
reseed 0
4 0 0 -
status 7
0 0 0 01000000000000000200000000000000030000000000000002
generate 6 40 strength 128
11 1 5005 -
generate 6 31 strength 257
5 257 256 -
generate 7 33 pr strength 256
5 256 128 -
reseed 6 pr
11 1 5005 -
status 6
0 0 0 01000000000000000300000000000000030000000000000004
generate 5 0 pr strength 257 string 38347a64e465fa6be0c1ab2095054934
4 0 0 -
generate 5 15 string 4c718f799e18a30b03ebc4b0b40c857532d066deea830ce30269904e86c1d0f624
0 0 0 b9c624649b7879d1969c51957308f1
generate 7 0 pr strength 256 string e5c4fb84dab447a035c76172d5b0b728ddf9fa8e5bad435e1098211132b1ba4969
5 256 128 -
status 0
0 0 0 00000000000000000000000000000000040000000000000007
status 3
0 0 0 01000000000000000700000000000000010000000000000006
generate 4 15 strength 192 string 6a32222ab4d04f4cbbc00a1843635fa0e9b46c363281f28ee826d035658b8be393
0 0 0 241e1b0330c40c5102bf04af321d4a
generate 4 16
0 0 0 a7a16831b1669e56d38ee585692f3806
generate 2 33
11 1 5005 -
uninstantiate 7
0 0 0 -
generate 0 33 pr
4 0 0 -
generate 1 0 string 56969fd98eef337316ea2f11d3825110799f6f898271b41dd384db59aea7f5070d
11 1 5005 -
generate 1 1 strength 192
11 1 5005 -
generate 2 1 pr
11 1 5005 -
generate 3 65
8 3 7 -
generate 6 33 strength 256 string 91fee4f5115b3b65e0aee46129862868766415bca8a5ed0e2c0029d8001ad0d704
11 1 5005 -
generate 5 32 pr
4 0 0 -
generate 2 15 pr
11 1 5005 -
generate 8 65 string 322660e1b29426f6284fc6104beaa16c6dfe4a10d39f4bf58900bf5863a19030b7
1 8 8 -
status 1
0 0 0 010000000000000002000000000000000a0000000000000009
generate 8 17 strength 128 string 05e8588891d85fafad9dba7291af8fc2
1 8 8 -
status 6
0 0 0 01000000000000000300000000000000030000000000000004
generate 6 33 strength 256
11 1 5005 -
generate 3 15 pr strength 128 string e51adc1e9fd4414005062224d007507e100428b9a10d7bacbc9446591bd429e562
7 3 0 -
status 7
0 0 0 00000000000000000000000000000000030000000000000002
generate 0 1
4 0 0 -
generate 1 17 string a86a40144e10dce692802aee880920dd
11 1 5005 -
generate 5 15 pr
4 0 0 -
generate 5 33 strength 257
4 0 0 -
generate 5 64 pr strength 257
4 0 0 -
generate 3 0
8 3 7 -
generate 4 15 strength 128 string 3c035fa009fd0b5f54b0b149cda71baf
8 3 7 -
generate 3 65 pr string 883055e819219a468ce0a5924a414c59ae7208c79d077741cd9884929e990b4f92
7 3 0 -
generate 5 64 strength 257
4 0 0 -
generate 4 16 pr strength 128
7 3 0 -
generate 7 33 strength 256
4 7 0 -
generate 4 33 strength 257
5 257 256 -
generate 2 16 pr
11 1 5005 -
generate 1 1
11 1 5005 -
generate 3 31
8 3 7 -
generate 2 0 string e7688dad15ee7a86e9f552b7adcbc2120f9632931714d87e77895b7ee3d39a0899
11 1 5005 -
generate 6 17
11 1 5005 -
generate 7 15 strength 128 string 0c2d3d5469ca2d8842947d9642fd0459
4 7 0 -
generate 4 32 string a1f290b1b83ee420f2838e327e9b175e
8 3 7 -
generate 6 32 pr
11 1 5005 -
generate 5 40 strength 128
4 0 0 -
status 5
0 0 0 01000000000000000300000000000000010000000000000002
generate 5 40 string d9
4 0 0 -
generate 7 64 strength 128
4 7 0 -
generate 1 1
11 1 5005 -
status 7
0 0 0 00000000000000000000000000000000030000000000000002
reseed 2 string e4
11 1 5005 -
generate 3 32 string 24
8 3 7 -
status 3
0 0 0 01000000000000000700000000000000010000000000000006
generate 1 32 pr string f41461afefd6151b0670a26fc3f23873
11 1 5005 -
status 5
0 0 0 01000000000000000300000000000000010000000000000002
status 6
0 0 0 01000000000000000300000000000000030000000000000004
generate 2 40
11 1 5005 -
reseed 5
4 0 0 -
generate 1 32 string b688b8e5bc5ec99b8da795ead880b8ae
11 1 5005 -
generate 7 40 string f70f5ad3b6f9074f3b3838a9832122e9a341ddcda7c45e293ba580e3fecef4fbee
4 7 0 -
reseed 0
4 0 0 -
status 4
0 0 0 01000000000000000400000000000000020000000000000006
generate 5 16 pr strength 192
4 0 0 -
reseed 2
11 1 5005 -
generate 4 65 string 3b801fbb6200442229469a2b6a6b4eea
8 3 7 -
status 2
0 0 0 01000000000000000300000000000000050000000000000007
generate 1 64 pr
11 1 5005 -
generate 0 33 string 2b37818245da79348b478581d02b5db5bcfaf33be56b6721255b3eae4e7df6a1d6
4 0 0 -
generate 7 15 pr string a9d078330c2caac4cd8e662e0fa973c5
4 7 0 -
instantiate 2
3 2 0 -
generate 5 40 pr
4 0 0 -
generate 6 0 string 7f27a639df0a141f8318fff98346eac7
11 1 5005 -
generate 0 40 strength 257
4 0 0 -
generate 1 17
11 1 5005 -
generate 6 64 pr string 22a1f6a28947c4fe44d730bed30adf0a
11 1 5005 -
reseed 5 pr
4 0 0 -";

// What Status says at the end, and the counts of the sources.
pub(crate) const COUNTS: &str = "node 0: live 0 counter 0 seeds 4 gives 7
node 1: live 1 counter 2 seeds 10 gives 9
node 2: live 1 counter 3 seeds 5 gives 7
node 3: live 1 counter 7 seeds 1 gives 6
node 4: live 1 counter 4 seeds 2 gives 6
node 5: live 1 counter 3 seeds 1 gives 2
node 6: live 1 counter 3 seeds 3 gives 4
node 7: live 0 counter 0 seeds 3 gives 2
source 0: taken 3643 blocks 29
source 1: taken 5675 blocks 25
";
